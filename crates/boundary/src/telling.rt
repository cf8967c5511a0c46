// Telling an answer: its ten numbers as forty bytes.
ghost use Rattle.std.specs.Prelude.{◌≡◌};
ghost use Rattle.boundary.specs.Answer.{answer_bytes};
ghost use Rattle.boundary.specs.Words.{word_number};

use crate::answers::Answer;

// The room that an answer takes. All seven operations ask for it in the same two lines, and not by a closure that tries the operation:
// where that is not called, nothing would be said of the lists that four of them are lent.
pub type Room = [u8; 40];

// Writes four bytes of each number, low byte first, and returns the number of the answer's word.
pub fn tell<A: Answer>(answer: A, room: &mut Room) -> usize
    ensures result_is { result ≡ word_number (A.stated answer).word }
    ensures room_is { room.new ≡ answer_bytes (A.stated answer) }
{
    let numbers = answer.numbers();
    for (i, byte) in room.iter_mut().enumerate() {
        *byte = numbers[i / 4].to_le_bytes()[i % 4];
    }
    numbers[0]
}
