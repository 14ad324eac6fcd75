// A load: a report of a made-up gradient, from the text of a seed and the inputs (docs/PINE.md, "A load").
#![tactic(auto)]

ghost use Rattle.std.specs.Prelude.{◌≡◌, [], ◌∷◌, ◌≤◌, ◌+◌, ◌*◌, length, take};
ghost use Rattle.rules.specs.Rules.{first, in_order};
ghost use Rattle.rows.specs.Outcome.{outcome};
ghost use Rattle.pine.specs.Param.{Field64, param_rules_up_to};
ghost use Rattle.pine.specs.Record.{encoded_input_len_of};
ghost use Rattle.flp.specs.Encode.{encode_outcome, encode_of};
ghost use Rattle.load_draws.specs.Draws.{gradient_of, stream_of};
ghost use Rattle.load_text.specs.Text.{load_limits, numbers_of};
ghost use Rattle.load_inputs.specs.Inputs.{early_rules};
ghost use Rattle.load_report.specs.Report.{encoded_in, words_of, words_for, report_of, write_report_of};

use pine::PineParam;
use pine::record::Pine;
use rules::Answer;

// The coordinates of a load at most, and what follows from these and from 16 tests: the bytes of a stream; the elements of
// a measurement, and of it with its results.
const GRADIENT: usize = 1024;

const STREAM: usize = 4096;

const RESULTS: usize = 16;

const WORDS: usize = 1968;

// The bytes that a report has at most.
pub const MAX_REPORT_LEN: usize = 15744;

// The gradient that a seed makes, encoded with the stream that it makes.
fn encode_drawn(
    seed: u64,
    param: PineParam,
    gradient: &mut [f64],
    stream: &mut [u8],
    measurement: &mut [u64],
    results: &mut [u64],
) -> Answer
    ensures { encode_outcome result measurement.new results.new ≡ encode_of Field64 param (gradient_of seed (length gradient.old) (length stream.old)) (stream_of seed (length gradient.old) (length stream.old)) measurement.old results.old }
{
    load_draws::draw(seed, gradient, stream);
    encode::encode_with_wr_joint_rand(param, gradient, stream, measurement, results)
}

fn write_answer(answer: Answer, row: &mut [u64]) -> usize
    requires { 2 ≤ length row.old }
    ensures { (take result row.new ≡ answer.number ∷ answer.place ∷ []) × (result ≡ 2) }
{
    row[0] = answer.number;
    row[1] = answer.place;
    2
}

// The same with inputs within the limits, whose rows for the gradient and the stream fit here.
fn encode_load(seed: u64, param: PineParam, measurement: &mut [u64], results: &mut [u64]) -> Answer
    requires { (in_order (param_rules_up_to Field64 1024 16 param)).number ≡ 0 }
    ensures { encode_outcome result measurement.new results.new ≡ encoded_in seed param measurement.old results.old }
{
    let pine = Pine::new(param);
    let d = pine.dimension as usize;
    let n = pine.stream_len() as usize;
    let mut gradient = [0.0f64; GRADIENT];
    let mut stream = [0u8; STREAM];
    encode_drawn(
        seed,
        param,
        &mut gradient[..d],
        &mut stream[..n],
        measurement,
        results,
    )
}

// Writes the numbers of a report, or of its refusal by encoding, to the start of a row, of which the measurement takes m,
// and gives how many they are.
fn write_encoded(
    seed: u64,
    param: PineParam,
    m: usize,
    row: &mut [u64],
    results: &mut [u64],
) -> usize
    requires param_value { (in_order (early_rules seed param)).number ≡ 0 }
    requires m_value { (m ≡ encoded_input_len_of param) × (length results.old ≡ param.num_wr_tests) }
    requires row_len { length row.old ≡ 1968 }
    ensures { (take result row.new ≡ words_of seed param) × (result ≤ 1968) }
{
    let end = m + results.len();
    let answer = encode_load(seed, param, &mut row[..m], results);
    if answer.number != 0 {
        return write_answer(answer, row);
    }
    measurement::copy_row(results, &mut row[m..end]);
    end
}

// The same with every rule.
fn write_words(seed: u64, param: PineParam, row: &mut [u64]) -> usize
    requires { length row.old ≡ 1968 }
    ensures { (take result row.new ≡ words_of seed param) × (result ≤ 1968) }
{
    let early = load_inputs::check_load(seed, param);
    if early.number != 0 {
        return write_answer(early, row);
    }
    let pine = Pine::new(param);
    let m = pine.encoded_input_len as usize;
    let t = pine.num_wr_tests as usize;
    let mut results = [0u64; RESULTS];
    write_encoded(seed, param, m, row, &mut results[..t])
}

// The same by a text; none for other text.
fn write_words_for(text: &[u8], row: &mut [u64]) -> usize
    requires { length row.old ≡ 1968 }
    ensures { (take result row.new ≡ words_for (numbers_of load_limits text.now)) × (result ≤ 1968) }
{
    let mut numbers = [0u64; 12];
    if !load_text::read_numbers(text, &mut numbers) {
        return 0;
    }
    write_words(numbers[0], load_inputs::param_of(numbers), row)
}

// How many bytes a load writes.
pub fn report_len(text: &[u8]) -> usize
    ensures { (result ≡ length (report_of text.now)) × (result ≤ 15744) }
{
    let mut row = [0u64; WORDS];
    8 * write_words_for(text, &mut row)
}

// Writes them over a row of as many: the measurement and the results, or a refusal's number and place, eight bytes
// each, the low one first.
pub fn write_report(text: &[u8], out: &mut [u8]) -> Answer
    ensures { outcome result out.new ≡ write_report_of text.now out.old }
{
    let mut row = [0u64; WORDS];
    let n = write_words_for(text, &mut row);
    let answer = rows::check_len(2, out.len(), 8 * n as u64);
    if answer.number != 0 {
        return answer;
    }
    octets::put_elements(out, 0, &row[..n]);
    answer
}
