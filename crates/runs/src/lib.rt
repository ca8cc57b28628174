// 02, M-101: a run of records at once. Each is answered as by the call on it alone, into eight bytes of its own.
//
// Units: K, mol/dm³, Pa.
#![tactic(auto)]

ghost use Rattle.std.specs.Prelude.{◌≡◌};
ghost use Rattle.refusals.specs.Code.{answer_code_of};
ghost use Rattle.runs.specs.Answers.{permit_of, RunFits, each_output, each_code, run_code, run_output, run_codes};

use questions::answer_into;
use records::{record_at, record_count};
use refusals::{Permit, Refusal, answer_code, tested};

// The most records that one call answers.
pub const MOST_RECORDS: usize = 4096;

// 7 where the output has less than eight bytes for each record or the code list less than a place, then 18.
fn permit(count: usize, room: usize, places: usize) -> Permit
    ensures { result ≡ permit_of count room places }
{
    // eight times the count might pass 2⁶⁴
    let outputs = room / 8;
    let output = tested(Ok(()), count <= outputs, Refusal::TooShort);
    let lists = tested(output, count <= places, Refusal::TooShort);
    tested(lists, count <= MOST_RECORDS, Refusal::TooManyRecords)
}

// Each record in turn: its number's bits into its own eight bytes, and its code into its own place. Two outputs, as C lends them, and k counts in
// them and in the run; zipped, the three would be pairs in pairs.
fn answer_each(run: &[u8], out: &mut [u8], codes: &mut [u32])
    requires { RunFits run.now out.old codes.old }
    ensures { (out.new ≡ each_output run.now out.old)
        × (codes.new ≡ each_code run.now out.old codes.old) }
{
    for k in 0..record_count(run) {
        let from = 8 * k;
        codes[k] = answer_code(answer_into(record_at(run, k), &mut out[from..from + 8]));
    }
}

// Answers a run of records of 18 bytes each; a piece of 1 to 17 bytes at its end is a record too, and gets 15. For each record in turn
// its code in codes, and its number's bits in its own eight bytes of out, which stay as they were where it is refused; or 7 where out or codes
// is short, then 18 for more than 4,096 records, and both as they were.
pub fn answers_into(run: &[u8], out: &mut [u8], codes: &mut [u32]) -> Result<(), Refusal>
    ensures { (answer_code_of result ≡ run_code run.now out.old codes.old)
        × (out.new ≡ run_output run.now out.old codes.old)
        × (codes.new ≡ run_codes run.now out.old codes.old) }
{
    permit(record_count(run), out.len(), codes.len())?;
    answer_each(run, out, codes);
    Ok(())
}
