// Comparing bytes.
ghost use Rattle.std.specs.Prelude.{◌≡◌};
ghost use Rattle.words.specs.Checks.{same_bytes};

// Whether two slices hold the same bytes.
#[tactic(auto, using(crate::proofs::Bytes::same_from_length, crate::proofs::Bytes::same_from_place, crate::proofs::Bytes::same_from_take, std::proofs::lemmas::List::take_more_same))]
pub(crate) fn same(bytes: &[u8], other: &[u8]) -> bool
    ensures { result ≡ same_bytes bytes.now other.now }
{
    if bytes.len() != other.len() {
        return false;
    }
    // a rule of the project: words and entries are compared by a loop with an index
    for i in 0..bytes.len() {
        if bytes[i] != other[i] {
            return false;
        }
    }
    true
}
