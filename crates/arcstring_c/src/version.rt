// The version of the library, for a caller to hold its header's against.
ghost use Rattle.std.specs.Prelude.{◌≡◌};
// ARCSTRING_VERSION of the include/arcstring.h that belongs to the library.
#[unsafe(no_mangle)]
pub extern "C" fn arcstring_version() -> u32
    ensures { result ≡ 3 }
{
    arcstring_calls::version::arcstring_version()
}
