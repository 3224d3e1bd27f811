// What is printed for a request and what was read for it. The bytes stand at the start of `out`, and the answer is how many they are.
ghost use Rattle.std.specs.Prelude.{◌≡◌, ◌≤◌, length};
ghost use Rattle.words.specs.declared.Form.TheVariants.{Kernel};
ghost use Rattle.text_numbers.specs.Writer.{Put};
ghost use Rattle.command_request.specs.Inputs.{is_unreadable, bytes_read};
ghost use Rattle.command_answer.specs.Inputs.{inputs_output};
ghost use Rattle.command_text.specs.Texts.{Roomy, output_room, store_limit};
ghost use Rattle.command_answer.specs.Output.{request_output, command_output};

use command_lines::{
    long_store_line, long_text_line, unreadable_store_line, unreadable_text_line, usage_line,
    wrong_budget_line,
};
use command_questions::joins::join_answer;
use command_questions::questions::question_answer;
use command_questions::translations::translation_answer;
use command_request::Input;
use command_request::request::Request;
use command_runs::tasks::start_answer;

// An arm for each request.
fn request_answer(
    request: Request,
    text: &[u8],
    stored: &[u8],
    header: &mut [i32],
    rows: &mut [i32],
    out: &mut [u8],
) -> usize
    requires roomy { Roomy Kernel header.old rows.old }
    requires stored_len_bound { length stored.now ≤ store_limit }
    requires output_room_in_bounds { output_room ≤ length out.old }
    ensures { Put (request_output request text.now stored.now) out.old result out.new }
{
    match request {
        Request::Ask(question) => question_answer(question, text, header, rows, out),
        Request::Translate(sheet) => translation_answer(sheet, text, header, rows, out),
        Request::Start(task, budget, given) => {
            start_answer(task, budget, text, given, stored, header, rows, out)
        }
        Request::Join => join_answer(text, stored, out),
        Request::WrongArguments => usage_line(out),
        Request::WrongBudget => wrong_budget_line(out),
    }
}

// What the command prints for a request, the text and, where the request names one, the bytes of a store file. The tables are lent to
// work in; what stands in them after it is free.
fn answer(
    request: Request,
    text: &[u8],
    stored: &[u8],
    header: &mut [i32],
    rows: &mut [i32],
    out: &mut [u8],
) -> usize
    requires roomy { Roomy Kernel header.old rows.old }
    requires output_room_in_bounds { output_room ≤ length out.old }
    ensures { Put (command_output request text.now stored.now) out.old result out.new }
{
    if text.len() > 2097152 {
        return long_text_line(out);
    }
    if stored.len() > 197376 {
        return long_store_line(out);
    }
    request_answer(request, text, stored, header, rows, out)
}

fn is_unreadable(input: Input) -> bool
    ensures { result ≡ is_unreadable input }
{
    match input {
        Input::Absent => false,
        Input::Bytes(_) => false,
        Input::Unreadable => true,
    }
}

fn bytes_read(input: Input) -> usize
    ensures { result ≡ bytes_read input }
{
    match input {
        Input::Absent => 0,
        Input::Bytes(count) => count,
        Input::Unreadable => 0,
    }
}

// What the command prints for a request and what was read for it, which stands at the start of `text` and `stored`. The tables are lent
// to work in; what stands in them after it is free.
pub fn inputs_answer(
    request: Request,
    text_input: Input,
    text: &[u8],
    store_input: Input,
    stored: &[u8],
    header: &mut [i32],
    rows: &mut [i32],
    out: &mut [u8],
) -> usize
    requires text_input_in_bounds { (bytes_read text_input ≤ length text.now) × (bytes_read store_input ≤ length stored.now) }
    requires roomy { Roomy Kernel header.old rows.old }
    requires output_room_in_bounds { output_room ≤ length out.old }
    ensures { Put (inputs_output request text_input store_input text.now stored.now) out.old result out.new }
{
    if is_unreadable(text_input) {
        return unreadable_text_line(out);
    }
    if is_unreadable(store_input) {
        return unreadable_store_line(out);
    }
    let text_bytes = bytes_read(text_input);
    let store_bytes = bytes_read(store_input);
    answer(
        request,
        &text[..text_bytes],
        &stored[..store_bytes],
        header,
        rows,
        out,
    )
}
