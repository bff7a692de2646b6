// The call for other languages, `pictures_find`, as a static library.
#![tactic(auto)]

ghost use Rattle.std.specs.Prelude.{length};
ghost use Rattle.pictures.specs.Promise.{CodePost};

// The number of things of the first picture, or 0x100 where there is none, 0x101 no description,
// 0x102 out full, 0x103 few.
#[unsafe(no_mangle)]
pub extern "C" fn pictures_find(
    description: &[u8],
    most: u32,
    out: &mut [u8],
    work: &mut [u32],
) -> u32
    ensures { CodePost description.now most out.old out.new (length work.old) result }
{
    pictures::pictures_find(description, most, out, work)
}
