//! The text of an answer.
ghost use Rattle.std.specs.Prelude.{◌≡◌, ◌+◌, ◌≤◌, ◌++◌, length, decimal};
ghost use Rattle.arrayvec.specs.ArrayVec.{array_vec_len};
ghost use Rattle.crib_run.specs.Text.{text_bytes};

use arrayvec::ArrayVec;
use itoa::Buffer;
use std::alloc::Allocator;

/// A text of at most 282 bytes, which needs no allocation. The longest one is the answer for a plan that fails: a line
/// of at most 14 bytes, and a game of at most 268.
pub type ShortText = ArrayVec<u8, 282>;

/// The text of an answer.
#[derive(Drop)]
pub enum Text<A: Allocator> {
    /// A text of at most 282 bytes. It is stored in the answer and needs no allocation.
    Short(ShortText),
    /// The text of a plan or of a board. It is allocated once.
    Section(Vec<u8, A>),
}

impl<A: Allocator> Text<A> {
    /// Returns the bytes of the text.
    #[tactic(auto, unfolding(crate::specs::Text::text_bytes))]
    pub fn as_slice(&self) -> &[u8]
        ensures { result.now ≡ text_bytes self.now }
    {
        match self {
            Text::Short(text) => text.as_slice(),
            Text::Section(text) => text.as_slice(),
        }
    }
}

/// Appends bytes to a text that has room for them.
pub fn add<const N: usize>(text: &mut ArrayVec<u8, N>, bytes: &[u8])
    requires { array_vec_len text.old + length bytes.now ≤ N }
    ensures items { text.new.items ≡ text.old.items ++ bytes.now }
    ensures len { array_vec_len text.new ≡ array_vec_len text.old + length bytes.now }
{
    text.try_extend_from_slice(bytes).unwrap();
}

/// Appends the decimal digits of a number to a text that has room for them. These are at most ten bytes, and at most
/// three if the number is less than 256.
pub fn add_number(text: &mut ShortText, number: u32)
    requires { array_vec_len text.old + length (decimal number) ≤ 282 }
    ensures items { text.new.items ≡ text.old.items ++ decimal number }
    ensures len { array_vec_len text.new ≡ array_vec_len text.old + length (decimal number) }
{
    add(text, Buffer::new().format(number).as_bytes());
}
