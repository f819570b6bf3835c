// The C face as a static library (include/hoachulim.h): each function is crate face's, by the C calling convention. Relies on crate face for
// everything; a crate is a library or a static library, and crate batch uses face as a library.

#![tactic(auto)]

ghost use Rattle.std.specs.Prelude.{◌≡◌, [], ◌∷◌};
ghost use Rattle.meaning.specs.Answers.{verdict_in};
ghost use Rattle.meaning.specs.Plants.{plant_read};
ghost use Rattle.meaning.specs.Refusals.{verdict_shown, written_shown, answer_shown, start_answer_shown};
ghost use Rattle.meaning.specs.Relays.{relay_left};
ghost use Rattle.meaning.specs.Sheets.{made_left};
ghost use Rattle.meaning.specs.Starts.{start_checked, start_left, start_controlled};
ghost use Rattle.meaning.specs.Tables.{checked, maker_left, controlled};
ghost use Rattle.face.specs.Answers.{mode, number_and_state, state_of, numbers_and_state, start_state_of};
ghost use Rattle.face.specs.Shown.{place_and_step, length_or_place};

#[unsafe(no_mangle)]
pub extern "C" fn hoachulim_plant(plant: &[u8], out: &mut [u64; 2]) -> u64
    ensures number { result ≡ (verdict_shown (verdict_in (plant_read plant.now))).number }
    ensures place { out.new ≡ place_and_step (verdict_shown (verdict_in (plant_read plant.now))) }
{
    face::hoachulim_plant(plant, out)
}

#[unsafe(no_mangle)]
pub extern "C" fn hoachulim_sheet(sheet: &[u8], buf: &mut [u8], out: &mut [u64; 2]) -> u64
    ensures number { result ≡ (written_shown (made_left sheet.now buf.old).answer).number }
    ensures length { out.new ≡ length_or_place (made_left sheet.now buf.old).answer }
    ensures bytes { buf.new ≡ (made_left sheet.now buf.old).buffer }
{
    face::hoachulim_sheet(sheet, buf, out)
}

#[unsafe(no_mangle)]
pub extern "C" fn hoachulim_check(plant: &[u8], table: &[u8], out: &mut [u64; 2]) -> u64
    ensures number { result ≡ (verdict_shown (checked plant.now table.now)).number }
    ensures place { out.new ≡ place_and_step (verdict_shown (checked plant.now table.now)) }
{
    face::hoachulim_check(plant, table, out)
}

#[unsafe(no_mangle)]
pub extern "C" fn hoachulim_make(plant: &[u8], form: u64, buf: &mut [u8], out: &mut [u64; 2]) -> u64
    ensures number { result ≡ (written_shown (maker_left plant.now form buf.old).answer).number }
    ensures length { out.new ≡ length_or_place (maker_left plant.now form buf.old).answer }
    ensures bytes { buf.new ≡ (maker_left plant.now form buf.old).buffer }
{
    face::hoachulim_make(plant, form, buf, out)
}

#[unsafe(no_mangle)]
pub extern "C" fn hoachulim_relay(
    plant: &[u8],
    table: &[u8],
    form: u64,
    buf: &mut [u8],
    out: &mut [u64; 2],
) -> u64
    ensures number { result ≡ (written_shown (relay_left plant.now table.now form buf.old).answer).number }
    ensures length { out.new ≡ length_or_place (relay_left plant.now table.now form buf.old).answer }
    ensures bytes { buf.new ≡ (relay_left plant.now table.now form buf.old).buffer }
{
    face::hoachulim_relay(plant, table, form, buf, out)
}

#[unsafe(no_mangle)]
pub extern "C" fn hoachulim_control(
    plant: &[u8],
    table: &[u8],
    place: u64,
    left: u64,
    x0: i64,
    x1: i64,
    x2: i64,
    x3: i64,
    out: &mut [u64; 5],
) -> u64
    ensures mode { result ≡ mode (answer_shown (controlled plant.now table.now (state_of place left) (x0 ∷ x1 ∷ x2 ∷ x3 ∷ []))) }
    ensures state { out.new ≡ number_and_state (answer_shown (controlled plant.now table.now (state_of place left) (x0 ∷ x1 ∷ x2 ∷ x3 ∷ []))) }
{
    face::hoachulim_control(plant, table, place, left, x0, x1, x2, x3, out)
}

#[unsafe(no_mangle)]
pub extern "C" fn hoachulim_start_check(plant: &[u8], start: &[u8], out: &mut [u64; 2]) -> u64
    ensures number { result ≡ (verdict_shown (start_checked plant.now start.now)).number }
    ensures place { out.new ≡ place_and_step (verdict_shown (start_checked plant.now start.now)) }
{
    face::hoachulim_start_check(plant, start, out)
}

#[unsafe(no_mangle)]
pub extern "C" fn hoachulim_start_make(
    plant: &[u8],
    chain: &[u8],
    form: u64,
    buf: &mut [u8],
    out: &mut [u64; 2],
) -> u64
    ensures number { result ≡ (written_shown (start_left plant.now chain.now form buf.old).answer).number }
    ensures length { out.new ≡ length_or_place (start_left plant.now chain.now form buf.old).answer }
    ensures bytes { buf.new ≡ (start_left plant.now chain.now form buf.old).buffer }
{
    face::hoachulim_start_make(plant, chain, form, buf, out)
}

#[unsafe(no_mangle)]
pub extern "C" fn hoachulim_start_control(
    plant: &[u8],
    start: &[u8],
    index: u64,
    place: u64,
    left: u64,
    x0: i64,
    x1: i64,
    x2: i64,
    x3: i64,
    out: &mut [u64; 6],
) -> u64
    ensures mode { result ≡ mode (start_answer_shown (start_controlled plant.now start.now (start_state_of index place left) (x0 ∷ x1 ∷ x2 ∷ x3 ∷ []))) }
    ensures state { out.new ≡ numbers_and_state (start_answer_shown (start_controlled plant.now start.now (start_state_of index place left) (x0 ∷ x1 ∷ x2 ∷ x3 ∷ []))) }
{
    face::hoachulim_start_control(plant, start, index, place, left, x0, x1, x2, x3, out)
}
