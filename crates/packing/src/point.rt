// What both ways use: a point.
ghost use Rattle.std.specs.Prelude.{◌≡◌, ◌+◌, ◌*◌, ◌<◌, length, slice_index};
ghost use Rattle.points.specs.Points.{points_of};

// Point i.
pub(crate) fn point_at(source: &[u8], i: usize) -> u16
    requires { 2 * i + 1 < length source.now }
    ensures point { result ≡ slice_index (points_of source.now) i }
{
    u16::from_le_bytes([source[2 * i], source[2 * i + 1]])
}
