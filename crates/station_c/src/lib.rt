// The entry points as C calls them: the four symbols of libstation.a.
//
// A library exports nothing, so each function here hands its arguments to that of the same name in crate `station` and promises the same, word for
// word: nothing is required of a host, and number, length and every byte of every slice are fixed for every input. include/alarm_register.h declares
// them; docs/CALLS.md says what a host sees to. No crate stands above this one.
#![tactic(auto)]

ghost use Rattle.definition.specs.Claim.{OpenReturns, StepReturns};
ghost use Rattle.definition.specs.Panel.{look, write, PanelReturns};

// Opens a register with these limits. Returns 0, 20 or 21; the length is 0.
#[unsafe(no_mangle)]
pub extern "C" fn alarm_open(
    register: &mut [u8],
    active: u32,
    history: u32,
    audit: u32,
    length: &mut u64,
) -> u32
    ensures { OpenReturns active history audit register.old result length.new register.new }
{
    station::alarm_open(register, active, history, audit, length)
}

// Steps a register by a call. Returns 0 and the answer's length, or a refusal's number and 0.
#[unsafe(no_mangle)]
pub extern "C" fn alarm_step(
    register: &mut [u8],
    call: &[u8],
    answer: &mut [u8],
    length: &mut u64,
) -> u32
    ensures { StepReturns
        register.old
        call.now
        answer.old
        result
        length.new
        answer.new
        register.new }
{
    station::alarm_step(register, call, answer, length)
}

// Looks: makes the panel block anew. Returns 0, 22 or 30; the length is 0.
#[unsafe(no_mangle)]
pub extern "C" fn alarm_panel_look(register: &[u8], block: &mut [u8], length: &mut u64) -> u32
    ensures { PanelReturns
        register.now
        block.old
        look
        result
        length.new
        block.new }
{
    station::alarm_panel_look(register, block, length)
}

// Writes one byte of the panel block, of which the mask alone takes it, and makes the block anew. Returns as a look.
#[unsafe(no_mangle)]
pub extern "C" fn alarm_panel_write(
    register: &[u8],
    block: &mut [u8],
    at: u32,
    value: u8,
    length: &mut u64,
) -> u32
    ensures { PanelReturns
        register.now
        block.old
        (write at value)
        result
        length.new
        block.new }
{
    station::alarm_panel_write(register, block, at, value, length)
}
