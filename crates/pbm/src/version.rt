// What an archive was made for. A program compares it with the header's, since another archive would link in silence.
ghost use Rattle.std.specs.Prelude.{◌≡◌};
ghost use Rattle.pbm.specs.Version.{version};

#[unsafe(no_mangle)]
pub extern "C" fn pbm_version() -> u64
    ensures answer { result ≡ version }
{
    1
}
