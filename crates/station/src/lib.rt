// The entry points: what a host calls. Crate station_c exports them to C.
//
// Each is thin: it checks the register (22 comes first, `on_sound` in the definition), hands its bytes to a plain function of another crate and
// tells the host what came of it (`reply::tell`). No entry point has a `requires`: number, length and every byte of every slice are fixed by equation
// for every input, and these equations stand in the definition (Claim.antt), as what the theorems on lists of calls speak of: specs/Theorem.antt has
// these, proofs/Promises.antt that the contracts here say just that. A new entry point is a crate of its own below this one, and a function here.
// Next: crates/operations, which does the calls.
#![tactic(auto)]

ghost use Rattle.definition.specs.Claim.{OpenReturns, StepReturns};
ghost use Rattle.definition.specs.Panel.{look, write, PanelReturns};
ghost use Rattle.panel.specs.Meaning.{call_of};
ghost use Rattle.model.specs.Refusal.{number_in};
ghost use Rattle.reply.specs.Meaning.{length_in};

use model::{Record, Refusal};
use panel::PanelCall;
use reply::Reply;

// 22 comes first, before the call is read.
fn step(register: &mut [u8], call: &[u8], answer: &mut [u8]) -> Reply
    ensures { StepReturns
        register.old
        call.now
        answer.old
        (number_in result)
        (length_in result)
        answer.new
        register.new }
{
    let Some(ends) = register_check::check(register) else {
        return Err(Refusal::Unsound);
    };
    operations::perform(register, ends, call, call::parse(call), answer)
}

// Opens a register with these limits. Returns 0, 20 or 21; the length is 0.
pub fn alarm_open(
    register: &mut [u8],
    active: u32,
    history: u32,
    audit: u32,
    length: &mut u64,
) -> u32
    ensures { OpenReturns active history audit register.old result length.new register.new }
{
    reply::tell_done(Record::open(register, active, history, audit), length)
}

// Steps a register by a call. Returns 0 and the answer's length, or a refusal's number and 0.
pub fn alarm_step(register: &mut [u8], call: &[u8], answer: &mut [u8], length: &mut u64) -> u32
    ensures { StepReturns
        register.old
        call.now
        answer.old
        result
        length.new
        answer.new
        register.new }
{
    reply::tell(step(register, call, answer), length)
}

// ---- M-102: the panel block

// 22 comes first, before the block is looked at.
fn show(register: &[u8], block: &mut [u8], call: PanelCall) -> Result<(), Refusal>
    ensures { PanelReturns
        register.now
        block.old
        (call_of call)
        (number_in result)
        0
        block.new }
{
    match register_check::check(register) {
        Some(_) => panel::show(register, block, call),
        None => Err(Refusal::Unsound),
    }
}

// Looks: makes the panel block anew. Returns 0, 22 or 30; the length is 0.
pub fn alarm_panel_look(register: &[u8], block: &mut [u8], length: &mut u64) -> u32
    ensures { PanelReturns
        register.now
        block.old
        look
        result
        length.new
        block.new }
{
    reply::tell_done(show(register, block, PanelCall::Look), length)
}

// Writes one byte of the panel block, of which the mask alone takes it, and makes the block anew. Returns as a look.
pub fn alarm_panel_write(
    register: &[u8],
    block: &mut [u8],
    at: u32,
    value: u8,
    length: &mut u64,
) -> u32
    ensures { PanelReturns
        register.now
        block.old
        (write at value)
        result
        length.new
        block.new }
{
    reply::tell_done(show(register, block, PanelCall::Write(at, value)), length)
}
