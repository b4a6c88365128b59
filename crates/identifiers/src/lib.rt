// Names of a text, compared by their bytes, and a fingerprint of each.
#![tactic(auto)]

ghost use Rattle.std.specs.Prelude.{◌≡◌, ◌+◌, ◌*◌, ◌%◌, ◌<◌};
ghost use Rattle.identifiers.specs.Names.{bytes_of, same_name, print_bound, print_from};

use parts::Name;

// Above every fingerprint.
const PRINT_BOUND: u64 = 4294967296;

// The bytes from a place up to another, as far as the text has them.
#[tactic(auto, using(crate::proofs::Laws::bytes_cut))]
pub fn bytes_of(text: &[u8], start: usize, end: usize) -> &[u8]
    ensures { result.now ≡ bytes_of text.now start end }
{
    let from = start.min(text.len());
    let to = end.clamp(from, text.len());
    &text[from..to]
}

#[tactic(auto, unfolding(crate::specs::Names::same_name))]
pub fn same_name(text: &[u8], a: Name, b: Name) -> bool
    ensures { result ≡ same_name text.now a b }
{
    let one = bytes_of(text, a.start, a.end);
    let other = bytes_of(text, b.start, b.end);
    chars::same(one, other)
}

fn next_print(print: u64, b: u8) -> u64
    requires { print < print_bound }
    ensures { result ≡ (print * 16777619 + b) % print_bound }
{
    (print * 16777619 + b as u64) % PRINT_BOUND
}

// A number of 32 bits that equal byte strings share.
#[tactic(auto, using(crate::proofs::Laws::print_next, crate::proofs::Laws::print_end))]
pub fn print_of(bytes: &[u8]) -> u64
    ensures { (result ≡ print_from 0 bytes.now) × (result < print_bound) }
{
    let mut print = 0;
    for b in bytes {
        print = next_print(print, *b);
    }
    print
}
