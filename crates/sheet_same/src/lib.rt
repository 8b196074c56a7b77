// Whether two sheets are the same.
#![tactic(auto)]

ghost use Rattle.std.specs.Prelude.{◌≡◌, length, replicate};
ghost use Rattle.sheet_spec.specs.Line.{equal};
ghost use Rattle.sheet_spec.specs.Translate.{full, image_of, scratch_of};
ghost use Rattle.sheet_spec.specs.Translate as sheets;

fn equal_words(v: &[u16], w: &[u16]) -> bool
    ensures { result ≡ equal v.now w.now }
{
    if v.len() != w.len() {
        return false;
    }
    let mut i: usize = 0;
    while i < v.len() {
        if v[i] != w[i] {
            return false;
        }
        i += 1;
    }
    true
}

// Both sheets translated, one after the other; their starts stand in the scratch's first place.
fn compare(
    first: &[u8],
    second: &[u8],
    first_image: &mut [u16],
    second_image: &mut [u16],
    scratch: &mut [u32],
) -> bool
    requires { (4096 ≡ length scratch.old) × (45056 ≡ length first_image.old) × (45056 ≡ length second_image.old) }
    ensures { (result ≡ sheets.same first.now second.now)
        × (first_image.new ≡ image_of full first.now (length scratch.old) first_image.old)
        × (second_image.new ≡ image_of full second.now (length scratch.old) second_image.old)
        × (scratch.new ≡ scratch_of full second.now (scratch_of full first.now scratch.old first_image.old) second_image.old) }
{
    let a = sheet_translate::translate(first, first_image, scratch);
    let start = scratch[0];
    let b = sheet_translate::translate(second, second_image, scratch);
    let other = scratch[0];
    let n = a.words;
    let m = b.words;
    let words = equal_words(&first_image[..n], &second_image[..m]);
    (a.number == 0) & (b.number == 0) & (start == other) & words
}

fn image_places() -> [u16; 45056]
    ensures { (result ≡ replicate 45056 0) × (45056 ≡ length result) }
{
    [0; 45056]
}

fn scratch_places() -> [u32; 4096]
    ensures { (result ≡ replicate 4096 0) × (4096 ≡ length result) }
{
    [0; 4096]
}

// Whether two sheets are the same, with places for 4,096 lines and for their words.
pub fn same(first: &[u8], second: &[u8]) -> bool
    ensures { result ≡ sheets.same first.now second.now }
{
    let mut first_image = image_places();
    let mut second_image = image_places();
    let mut scratch = scratch_places();
    compare(
        first,
        second,
        &mut first_image,
        &mut second_image,
        &mut scratch,
    )
}
