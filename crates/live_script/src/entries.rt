//! Which bytes of a script are a whole entry.
ghost use Rattle.std.specs.Prelude.{◌≡◌, ◌≤◌, Some, IfSome, MatchOption, length, take};
ghost use Rattle.live_script.specs.Entries.{whole_block, last_piece};

use room_spec::Block;

/// The most bytes of an entry: a line with its line end, or the line `open` with its block.
pub const MAX_ENTRY: usize = 65536;

/// The block at the front of a text, if its line `end` has its line end.
pub(crate) fn whole_block(text: &[u8]) -> Option<&[u8]>
    ensures found { MatchOption result (whole_block text.now ≡ None) (λ block. whole_block text.now ≡ Some (length block.now)) }
    ensures whole { IfSome result (λ block. whole_block block.now ≡ Some (length block.now)) }
    ensures front { IfSome result (λ block. (length block.now ≤ length text.now) × (block.now ≡ take (length block.now) text.now)) }
{
    let block = Block::at_front(text)?;
    let _ = block.lines(); // for the proof: the block ends with its line `end`
    let len = block.text().len();
    let whole = &text[..len];
    if whole.ends_with(b"\n") {
        Some(whole)
    } else {
        None
    }
}

/// The front of a text, as long as an entry may be.
#[tactic(auto, using(crate::proofs::Cutting::take_front))]
pub(crate) fn front_of(text: &[u8]) -> &[u8]
    ensures { result.now ≡ take MAX_ENTRY text.now }
{
    &text[..text.len().min(MAX_ENTRY)]
}
