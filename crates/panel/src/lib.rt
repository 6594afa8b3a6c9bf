// The panel block (M-102): eight bytes for the lamp card of the station desk, made anew from the register by each call.
//
// A call is a look, or a write of one byte; only a write of the mask has an effect of its own. The register is only read: one
// walk along its active chain gives the flags. The highest severity that waits, by flag and by mask, is found by a count of leading
// zeros. The definition says all of this bit by bit (Panel.antt); specs/BitLaws.antt joins the two, and specs/FlagLaws.antt has the
// walk. Next: `alarm_panel_look` and `alarm_panel_write` of crates/station, which check the register first.
#![tactic(auto)]

ghost use Rattle.std.specs.Prelude.{◌≡◌, cond, ◌<◌, T, eqb, length};
ghost use Rattle.std.specs.Int.Bits.{bit_and};
ghost use Rattle.definition.specs.Panel.{is_set, by_bits, highest as highest_bit, is_flagged, mask_of, in_mask};
ghost use Rattle.definition.specs.Sound.{sound};
ghost use Rattle.history.specs.Walk.{alarms_on};
ghost use Rattle.panel.specs.Meaning.{call_of, flag_of, Shows};

use model::Refusal;
use record::State;
use register::Chain;

// A call on the panel: a look, or a write of a value to the byte at a place.
#[derive(Clone, Copy)]
pub enum PanelCall {
    Look,
    Write(u32, u8),
}

// Where the block's parts begin, and its width. Flags, mask, highest and lamp are a byte each, the active length is a u32.
#[derive(Drop)]
struct PanelAt {}

impl PanelAt {
    const FLAGS: usize = 0;

    const MASK: usize = 1;

    const ACTIVE: usize = 4;

    const WIDTH: usize = 8;
}

// The mask's place as a write names it.
const MASK_BYTE: u32 = 1;

// The bits that a mask may have: those of severities 0 to 5.
const MASK_BITS: u8 = 63;

// The last of the two states in which an alarm sets its flag: raised and updated.
const UPDATED: u8 = State::Updated as u8;

// The flag of an alarm in a state and of a severity; none in other states.
fn flag(state: u8, severity: u8) -> u8
    requires { severity < 8 }
    ensures { result ≡ flag_of state severity }
{
    if UPDATED < state {
        return 0;
    }
    1u8 << severity
}

// The flags of a register: bit s is set where an active alarm of severity s is raised or updated.
fn flags(register: &[u8]) -> u8
    requires { T (sound register.now) }
    ensures { result ≡ by_bits 8 (is_flagged (alarms_on 0 register.now)) }
{
    let mut found = 0;
    for i in history::records(register, Chain::Active) {
        let alarm = register::payload(register, i);
        found |= flag(record::state(alarm), record::severity(alarm));
    }
    found
}

// The mask that a call leaves: a write of its byte brings another.
fn mask_of(block: &[u8], call: PanelCall) -> u8
    requires { length block.now ≡ 8 }
    ensures { result ≡ mask_of (call_of call) block.now }
{
    match call {
        PanelCall::Write(MASK_BYTE, value) => value,
        _ => block[PanelAt::MASK],
    }
}

// A mask without its bits 6 and 7.
fn kept(mask: u8) -> u8
    ensures { result ≡ by_bits 8 (in_mask mask) }
{
    mask & MASK_BITS
}

// One more than the number of the highest bit that is set in both, or 0.
fn highest(flags: u8, mask: u8) -> u8
    ensures { result ≡ highest_bit 8 (is_set (bit_and flags mask)) }
{
    (8 - (flags & mask).leading_zeros()) as u8
}

// 1 where a severity waits, else 0.
fn lit(highest: u8) -> u8
    ensures { result ≡ cond (eqb highest 0) 0 1 }
{
    u8::from(highest != 0)
}

// Makes the block anew; or refuses, and the block is as it was, where that does not have eight bytes.
pub fn show(register: &[u8], block: &mut [u8], call: PanelCall) -> Result<(), Refusal>
    requires { T (sound register.now) }
    ensures { Shows register.now block.old call result block.new }
{
    if block.len() != PanelAt::WIDTH {
        return Err(Refusal::AnswerLength);
    }
    let set = flags(register);
    let mask = kept(mask_of(block, call));
    let top = highest(set, mask);
    octets::put_bytes(block, PanelAt::FLAGS, &[set, mask, top, lit(top)]);
    octets::put32(
        block,
        PanelAt::ACTIVE,
        register::held(register, Chain::Active),
    );
    Ok(())
}
