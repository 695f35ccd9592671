// Texts cut at the first of a byte, and compared.
ghost use Rattle.std.specs.Prelude.{◌≡◌};
ghost use Rattle.port_digits.specs.Cut.{text_before, text_after, has, until, same};

// How many bytes stand before the first b; all of them where there is none.
pub fn find(t: &[u8], b: u8) -> usize
    ensures { result ≡ until b t.now }
{
    t.iter().position(|&c| c == b).unwrap_or(t.len())
}

// The bytes before the first b.
pub fn before(t: &[u8], b: u8) -> &[u8]
    ensures { result.now ≡ text_before b t.now }
{
    &t[..find(t, b)]
}

// The bytes after the first b.
pub fn after(t: &[u8], b: u8) -> &[u8]
    ensures { result.now ≡ text_after b t.now }
{
    let n = find(t, b);
    if n < t.len() { &t[n + 1..] } else { &[] }
}

// A b is there.
#[tactic(auto, using(crate::proofs::Cutting::has_any))]
pub fn has(t: &[u8], b: u8) -> bool
    ensures { result ≡ has b t.now }
{
    t.contains(&b)
}

// Two texts are the same, byte for byte. Texts are compared with words, which are arrays, and `==` refuses a slice beside an array: so this is a
// function of two slices.
#[tactic(auto, using(crate::proofs::Cutting::same_pointwise))]
pub fn same(t: &[u8], s: &[u8]) -> bool
    ensures { result ≡ same t.now s.now }
{
    t == s
}
