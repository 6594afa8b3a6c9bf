// What an operation returns, and what a host is told of it.
//
// An operation that may be refused answers a `Reply`: it has written an answer of some length, or it is refused and has changed
// nothing. `Replies` (specs/Meaning.antt) says which of the two a step of the definition comes to, on the register's and the answer's bytes;
// the laws beside it (specs/ReplyLaws.antt) serve every operation. The entry points hand their reply to `tell`, the one place where it
// becomes the number that is returned and the length that is set. Next: crates/operations, which makes the replies.
#![tactic(auto)]

ghost use Rattle.std.specs.Prelude.{◌≡◌};
ghost use Rattle.model.specs.Refusal.{number_in};
ghost use Rattle.reply.specs.Meaning.{length_in, number_told, length_told};

use model::Refusal;

// The answer's length, or why there is none.
pub type Reply = Result<usize, Refusal>;

// Returns the number and sets the length of a reply that is refused by a number, whatever that is.
pub fn tell_number(reply: Result<usize, u32>, length: &mut u64) -> u32
    ensures value { result ≡ number_told reply }
    ensures length_after { length.new ≡ length_told reply }
{
    match reply {
        Ok(n) => {
            *length = n as u64;
            0
        }
        Err(number) => {
            *length = 0;
            number
        }
    }
}

// Returns the reply's number and sets its length, as a host is told them.
pub fn tell(reply: Reply, length: &mut u64) -> u32
    ensures value { result ≡ number_in reply }
    ensures length_after { length.new ≡ length_in reply }
{
    tell_number(reply.map_err(|refusal| u32::from(refusal)), length)
}

// The same of a call that has no answer: its length is 0.
pub fn tell_done(outcome: Result<(), Refusal>, length: &mut u64) -> u32
    ensures value { result ≡ number_in outcome }
    ensures length_after { length.new ≡ 0 }
{
    tell(outcome.map(|()| 0), length)
}
