// What the arguments ask for.
ghost use Rattle.std.specs.Prelude.{◌≡◌, eqb};
ghost use Rattle.words.specs.Word.{pick};
ghost use Rattle.command_request.specs.declared.request.Verb.TheVariants.{Start as StartVerb};
ghost use Rattle.command_request.specs.declared.request.Request.TheVariants.{WrongArguments};
ghost use Rattle.command_request.specs.Requests.{verb_of, start_request, request_by, request_of, reads_text, reads_store, file_argument};

use text_numbers::number::natural_of;
use words::Form;

// What starts from a store: the run of a program, the preview of a source program's run, the run of a kernel program that a dispatcher
// sees, or the run of a flat list.
#[derive(Clone, Copy, PartialEq, Eq)]
pub enum Task {
    Run(Form),
    Preview,
    DispatcherRun,
    FlatRun,
}

// What is asked of one text: the check of a program, what a source program can write, the page or the flat list of a kernel program, the check of
// a flat list.
#[derive(Clone, Copy, PartialEq, Eq)]
pub enum Question {
    Check(Form),
    Writes,
    Page,
    Flatten,
    FlatCheck,
}

// How the translation of a source text is shown: its text, or its page.
#[derive(Clone, Copy, PartialEq, Eq)]
pub enum Sheet {
    Text,
    Page,
}

// What the first argument says.
#[derive(Clone, Copy, PartialEq, Eq)]
pub enum Verb {
    Ask(Question),
    Translate(Sheet),
    Start(Task),
    Join,
    Unknown,
}

// What all arguments ask for; what starts from a store has its budget, and says whether a store file is named. A join names a file with the
// second text.
#[derive(Clone, Copy, PartialEq, Eq)]
pub enum Request {
    Ask(Question),
    Translate(Sheet),
    Start(Task, u32, bool),
    Join,
    WrongArguments,
    WrongBudget,
}

// What is done with a source text, with a kernel text, with the text of a flat list.
fn verb_of(name: &str) -> Verb
    ensures { result ≡ verb_of name.now }
{
    match name {
        "check" => Verb::Ask(Question::Check(Form::Source)),
        "run" => Verb::Start(Task::Run(Form::Source)),
        "preview" => Verb::Start(Task::Preview),
        "translate" => Verb::Translate(Sheet::Text),
        "translate-page" => Verb::Translate(Sheet::Page),
        "writes" => Verb::Ask(Question::Writes),
        "join" => Verb::Join,
        "kernel-check" => Verb::Ask(Question::Check(Form::Kernel)),
        "kernel-run" => Verb::Start(Task::Run(Form::Kernel)),
        "dispatcher-run" => Verb::Start(Task::DispatcherRun),
        "page" => Verb::Ask(Question::Page),
        "flatten" => Verb::Ask(Question::Flatten),
        "flat-check" => Verb::Ask(Question::FlatCheck),
        "flat-run" => Verb::Start(Task::FlatRun),
        _ => Verb::Unknown,
    }
}

// Bytes that are no text are no name.
fn verb_named(name: &[u8]) -> Verb
    ensures { result ≡ verb_of name.now }
{
    match str::from_utf8(name) {
        Ok(text) => verb_of(text),
        Err(_) => Verb::Unknown,
    }
}

fn start_request(task: Task, budget: Option<u32>, stored: bool) -> Request
    ensures { result ≡ start_request task budget stored }
{
    match budget {
        Some(steps) => Request::Start(task, steps, stored),
        None => Request::WrongBudget,
    }
}

// A request that has so many arguments.
fn with_arguments(wanted: usize, request: Request, count: usize) -> Request
    ensures { result ≡ pick (eqb count wanted) request WrongArguments }
{
    if count == wanted {
        return request;
    }
    Request::WrongArguments
}

// Two arguments or three, of which the second is the budget, any unsigned 32-bit number, and the third names a store file.
fn start_arguments(task: Task, count: usize, second: &[u8]) -> Request
    ensures { result ≡ request_by (StartVerb task) count second.now }
{
    if count < 2 || count > 3 {
        return Request::WrongArguments;
    }
    start_request(task, natural_of(second, u32::MAX), count == 3)
}

fn request_by(verb: Verb, count: usize, second: &[u8]) -> Request
    ensures { result ≡ request_by verb count second.now }
{
    match verb {
        Verb::Ask(question) => with_arguments(1, Request::Ask(question), count),
        Verb::Translate(sheet) => with_arguments(1, Request::Translate(sheet), count),
        Verb::Start(task) => start_arguments(task, count, second),
        Verb::Join => with_arguments(2, Request::Join, count),
        Verb::Unknown => Request::WrongArguments,
    }
}

// What so many arguments ask for, of which these are the first and the second.
pub fn request_of(count: usize, first: &[u8], second: &[u8]) -> Request
    ensures { result ≡ request_of count first.now second.now }
{
    request_by(verb_named(first), count, second)
}

// Whether standard input is read. With wrong arguments nothing is.
pub fn reads_text(request: Request) -> bool
    ensures { result ≡ reads_text request }
{
    match request {
        Request::WrongArguments | Request::WrongBudget => false,
        Request::Ask(_) | Request::Translate(_) | Request::Start(_, _, _) | Request::Join => true,
    }
}

// Whether a file is read: the store, or the second text of a join.
pub fn reads_store(request: Request) -> bool
    ensures { result ≡ reads_store request }
{
    match request {
        Request::Start(_, _, stored) => stored,
        Request::Join => true,
        Request::Ask(_) | Request::Translate(_) => false,
        Request::WrongArguments | Request::WrongBudget => false,
    }
}

// Which argument names that file.
pub fn file_argument(request: Request) -> usize
    ensures { result ≡ file_argument request }
{
    match request {
        Request::Join => 2,
        Request::Ask(_) | Request::Translate(_) | Request::Start(_, _, _) => 3,
        Request::WrongArguments | Request::WrongBudget => 3,
    }
}
