// The C face (include/hoachulim.h): each function hands its bytes to a library and sets out the answer as numbers. Relies on the libraries for
// everything else. Leaves out nothing that they answer, keeps no state, and asks nothing of its caller.

#![tactic(auto)]

mod answers;
pub mod shown;

ghost use Rattle.std.specs.Prelude.{◌≡◌, [], ◌∷◌};
ghost use Rattle.meaning.specs.Answers.{verdict_in};
ghost use Rattle.meaning.specs.Plants.{plant_read};
ghost use Rattle.meaning.specs.Refusals.{verdict_shown, written_shown, answer_shown, start_answer_shown};
ghost use Rattle.meaning.specs.Relays.{relay_left};
ghost use Rattle.meaning.specs.Sheets.{made_left};
ghost use Rattle.meaning.specs.Starts.{start_checked, start_left, start_controlled};
ghost use Rattle.meaning.specs.Tables.{checked, maker_left, controlled};
ghost use Rattle.face.specs.Answers.{mode, number_and_state, state_of, numbers_and_state, start_state_of};
ghost use Rattle.face.specs.Shown.{place_and_step, length_or_place};

use files::plants;
use meaning::{StartState, State};
use tables::{checks, control, makes, relays, start_checks, start_control, start_makes};

// A plant file: 0, or the number that it is refused by; out holds place and step.
pub fn hoachulim_plant(plant: &[u8], out: &mut [u64; 2]) -> u64
    ensures number { result ≡ (verdict_shown (verdict_in (plant_read plant.now))).number }
    ensures place { out.new ≡ place_and_step (verdict_shown (verdict_in (plant_read plant.now))) }
{
    shown::verdict(plants::judge_plant(plant), out)
}

// The plant file of a sheet file into a lent buffer: 0, or the number of the refusal; out holds the length written, or place and step. Finished, only
// the plant's bytes are changed; refused, the buffer is all zeros.
pub fn hoachulim_sheet(sheet: &[u8], buf: &mut [u8], out: &mut [u64; 2]) -> u64
    ensures number { result ≡ (written_shown (made_left sheet.now buf.old).answer).number }
    ensures length { out.new ≡ length_or_place (made_left sheet.now buf.old).answer }
    ensures bytes { buf.new ≡ (made_left sheet.now buf.old).buffer }
{
    shown::written(sheets::sheets::make_plant(sheet, buf), out)
}

// A table file for a plant file: 0, or the number that they are refused by; out holds place and step.
pub fn hoachulim_check(plant: &[u8], table: &[u8], out: &mut [u64; 2]) -> u64
    ensures number { result ≡ (verdict_shown (checked plant.now table.now)).number }
    ensures place { out.new ≡ place_and_step (verdict_shown (checked plant.now table.now)) }
{
    shown::verdict(checks::check(plant, table), out)
}

// The table of a plant file, of the form that is told, into a lent buffer: 0, or the number of the refusal; out holds the length written, or place and
// step. Finished, only the table's bytes are changed; refused, the buffer is all zeros.
pub fn hoachulim_make(plant: &[u8], form: u64, buf: &mut [u8], out: &mut [u64; 2]) -> u64
    ensures number { result ≡ (written_shown (maker_left plant.now form buf.old).answer).number }
    ensures length { out.new ≡ length_or_place (maker_left plant.now form buf.old).answer }
    ensures bytes { buf.new ≡ (maker_left plant.now form buf.old).buffer }
{
    shown::written(makes::make(plant, form as usize, buf), out)
}

// A table file for a plant file as one of the form that is told, into a lent buffer: 0, or the number of the refusal, the checker's where that refuses the
// table; out holds the length written, or place and step. Finished, only the table's bytes are changed; refused, the buffer is all zeros.
pub fn hoachulim_relay(
    plant: &[u8],
    table: &[u8],
    form: u64,
    buf: &mut [u8],
    out: &mut [u64; 2],
) -> u64
    ensures number { result ≡ (written_shown (relay_left plant.now table.now form buf.old).answer).number }
    ensures length { out.new ≡ length_or_place (relay_left plant.now table.now form buf.old).answer }
    ensures bytes { buf.new ≡ (relay_left plant.now table.now form buf.old).buffer }
{
    shown::written(relays::relay(plant, table, form as usize, buf), out)
}

// One call of the controller: the mode, 65,535 where it is refused; out holds number, place and step of the refusal, then the next place and left.
pub fn hoachulim_control(
    plant: &[u8],
    table: &[u8],
    place: u64,
    left: u64,
    x0: i64,
    x1: i64,
    x2: i64,
    x3: i64,
    out: &mut [u64; 5],
) -> u64
    ensures mode { result ≡ mode (answer_shown (controlled plant.now table.now (state_of place left) (x0 ∷ x1 ∷ x2 ∷ x3 ∷ []))) }
    ensures state { out.new ≡ number_and_state (answer_shown (controlled plant.now table.now (state_of place left) (x0 ∷ x1 ∷ x2 ∷ x3 ∷ []))) }
{
    let state = State {
        place: place as usize,
        left: left as usize,
    };
    answers::answer(control::control(plant, table, state, [x0, x1, x2, x3]), out)
}

// A start file for a plant file: 0, or the number that they are refused by; out holds place and step.
pub fn hoachulim_start_check(plant: &[u8], start: &[u8], out: &mut [u64; 2]) -> u64
    ensures number { result ≡ (verdict_shown (start_checked plant.now start.now)).number }
    ensures place { out.new ≡ place_and_step (verdict_shown (start_checked plant.now start.now)) }
{
    shown::verdict(start_checks::start_check(plant, start), out)
}

// The start file of a plant file and a chain, its tables of the form that is told, into a lent buffer: 0, or the number of the refusal; out holds the
// length written, or place and step. Finished, only the file's bytes are changed; refused, the buffer is all zeros.
pub fn hoachulim_start_make(
    plant: &[u8],
    chain: &[u8],
    form: u64,
    buf: &mut [u8],
    out: &mut [u64; 2],
) -> u64
    ensures number { result ≡ (written_shown (start_left plant.now chain.now form buf.old).answer).number }
    ensures length { out.new ≡ length_or_place (start_left plant.now chain.now form buf.old).answer }
    ensures bytes { buf.new ≡ (start_left plant.now chain.now form buf.old).buffer }
{
    shown::written(
        start_makes::start_make(plant, chain, form as usize, buf),
        out,
    )
}

// One call of the controller on a start file: the mode, 65,535 where it is refused; out holds number, place and step of the refusal, then the next index,
// place and left.
pub fn hoachulim_start_control(
    plant: &[u8],
    start: &[u8],
    index: u64,
    place: u64,
    left: u64,
    x0: i64,
    x1: i64,
    x2: i64,
    x3: i64,
    out: &mut [u64; 6],
) -> u64
    ensures mode { result ≡ mode (start_answer_shown (start_controlled plant.now start.now (start_state_of index place left) (x0 ∷ x1 ∷ x2 ∷ x3 ∷ []))) }
    ensures state { out.new ≡ numbers_and_state (start_answer_shown (start_controlled plant.now start.now (start_state_of index place left) (x0 ∷ x1 ∷ x2 ∷ x3 ∷ []))) }
{
    let state = StartState {
        index: index as usize,
        state: State {
            place: place as usize,
            left: left as usize,
        },
    };
    answers::start_answer(
        start_control::start_control(plant, start, state, [x0, x1, x2, x3]),
        out,
    )
}
