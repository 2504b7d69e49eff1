// What a server does with a message.
ghost use Rattle.std.specs.Prelude.{◌≡◌, ◌&&◌, ℕ, true, List, [], ◌∷◌, Some, None, IfOk, OnOk, is_some};
ghost use Rattle.std.specs.Str.{IsUtf8};
ghost use Rattle.serde_json.specs.Data.{Data, null};
ghost use Rattle.serde_json.specs.Errors.{IsMemory};
ghost use Rattle.serde_json.specs.Read.{read};
ghost use Rattle.serde_json.specs.View.{view};
ghost use Rattle.al_lsp_messages.specs.Incoming.{shape_of};
ghost use Rattle.al_lsp_messages.specs.Methods.{notice_of};
ghost use Rattle.al_lsp_messages.specs.Outgoing.{answered_id};
ghost use Rattle.al_lsp_served.specs.Answers.{due_of, is_serving, is_followed, is_checked, Adds, AddsNone};
ghost use Rattle.al_lsp_served.specs.Documents.{KeepsOver};
ghost use Rattle.al_lsp_served.specs.Named.{held};
ghost use Rattle.al_lsp_served.specs.Pictures.{after_message, TellsNothing, KeepsPicture};
ghost use Rattle.al_lsp_served.specs.Steps.{KeepsStep};
ghost use Rattle.al_lsp_served.specs.Told.{told_of, IsTold};

use crate::disk::Folders;
use crate::library::DiagnosedLibrary;
use crate::telling::Picture;
use crate::workspace::Workspace;
use al_base::NoMemory;
use al_lsp_messages::{
    ErrorCode, Incoming, NoticeMethod, Outgoing, RequestMethod, capabilities, incoming_of,
    notice_of, request_of,
};
use serde_json::{Error, Value};
use std::alloc::Global;
use std::collections::BTreeMap;

/// What comes after a message.
#[derive(Clone, Copy, Debug, PartialEq, Eq)]
pub enum Step {
    On,
    /// The session ends; whether it was shut down before.
    Exit(bool),
}

#[derive(Clone, Copy, Debug, PartialEq, Eq)]
pub enum Phase {
    New,
    Serving,
    ShutDown,
}

impl Phase {
    fn is_serving(self) -> bool
        ensures { result ≡ is_serving self }
    {
        match self {
            Phase::Serving => true,
            Phase::New | Phase::ShutDown => false,
        }
    }
}

/// What a request gets.
enum Answer {
    Given(Value),
    Refused(ErrorCode),
}

impl Answer {
    fn into_message(self, id: Value) -> Outgoing
        ensures answers { answered_id result ≡ view id ∷ [] }
        ensures silent { (name : List ℕ) (had : Data) → after_message name had result ≡ had }
    {
        match self {
            Answer::Given(value) => Outgoing::Response(id, value),
            Answer::Refused(code) => Outgoing::Refusal(id, code),
        }
    }
}

impl Drop for Answer {
    fn drop(self) {
        match self {
            Answer::Given(_) => {}
            Answer::Refused(_) => {}
        }
    }
}

/// The server of one client.
pub struct Server<L: DiagnosedLibrary> {
    pub space: Workspace<L>,
    pub phase: Phase,
    /// What was published for files.
    pub told: Picture,
}

impl<L: DiagnosedLibrary + Drop> Drop for Server<L> {
    fn drop(self) {
        let Server {
            space: _,
            phase: _,
            told: _,
        } = self;
    }
}

impl<L: DiagnosedLibrary> Server<L> {
    /// A server over a library with no file; of these folders, where the client names none.
    pub fn new(alloc: Global, library: L, folders: Vec<String>) -> Server<L> {
        Server {
            space: Workspace::new(alloc, library, folders),
            phase: Phase::New,
            told: BTreeMap::new(alloc),
        }
    }

    /// Does what a body asks for, and adds to `out` what is to be sent: one answer to each request, with its id, and to each body that is no
    /// message; and of each file of which the client has another list than is found now, that list.
    ///
    /// # Errors
    ///
    /// `NoMemory` where memory was wanted and not given.
    pub fn take<D: Folders>(
        &mut self,
        disk: &D,
        body: &[u8],
        out: &mut Vec<Outgoing>,
    ) -> Result<Step, NoMemory>
        ensures answers { OnOk result ((d : Data) → IsUtf8 body.now → read body.now ≡ Some d → Adds out.old.items out.new.items (due_of (shape_of d))) }
        ensures no_json { OnOk result ((IsUtf8 body.now → read body.now ≡ None) → Adds out.old.items out.new.items (null ∷ [])) }
        ensures step { OnOk result (KeepsStep L.files self.old.space.sources.library self.old.space.sources.texts self.new.space.sources.library self.new.space.sources.texts) }
        ensures over { OnOk result (KeepsOver self.old.space.open self.old.space.sources.texts self.new.space.open self.new.space.sources.texts) }
        ensures picture { OnOk result (KeepsPicture out.old.items (told_of self.old.told) out.new.items (told_of self.new.told)) }
        ensures found { OnOk result ((d : Data) → IsUtf8 body.now → read body.now ≡ Some d → is_checked self.old.phase (shape_of d) ≡ true → L.finds (L.files self.new.space.sources.library) (L.found self.new.space.sources.library)) }
        ensures told { OnOk result ((d : Data) → IsUtf8 body.now → read body.now ≡ Some d → is_checked self.old.phase (shape_of d) ≡ true → IsTold self.new.space.counting self.new.space.sources.texts (λ name. is_some (held self.new.space.open name)) (told_of self.new.told) (L.found self.new.space.sources.library)) }
    {
        match Value::from_slice(self.space.alloc, body) {
            Ok(message) => self.take_value(disk, &message, out),
            Err(error) => refuse_body(error, out),
        }
    }

    fn take_value<D: Folders>(
        &mut self,
        disk: &D,
        message: &Value,
        out: &mut Vec<Outgoing>,
    ) -> Result<Step, NoMemory>
        ensures answers { OnOk result (Adds out.old.items out.new.items (due_of (shape_of (view message.now)))) }
        ensures step { OnOk result (KeepsStep L.files self.old.space.sources.library self.old.space.sources.texts self.new.space.sources.library self.new.space.sources.texts) }
        ensures over { OnOk result (KeepsOver self.old.space.open self.old.space.sources.texts self.new.space.open self.new.space.sources.texts) }
        ensures picture { OnOk result (KeepsPicture out.old.items (told_of self.old.told) out.new.items (told_of self.new.told)) }
        ensures found { OnOk result (is_checked self.old.phase (shape_of (view message.now)) ≡ true → L.finds (L.files self.new.space.sources.library) (L.found self.new.space.sources.library)) }
        ensures told { OnOk result (is_checked self.old.phase (shape_of (view message.now)) ≡ true → IsTold self.new.space.counting self.new.space.sources.texts (λ name. is_some (held self.new.space.open name)) (told_of self.new.told) (L.found self.new.space.sources.library)) }
    {
        match incoming_of(message) {
            Incoming::Request(id, method, params) => self.request(id, method, params, out),
            Incoming::Notice(method, params) => self.notice(disk, method, params, out),
            Incoming::Answer => Ok(Step::On),
            Incoming::Invalid => refuse_unknown(out, ErrorCode::InvalidRequest),
        }
    }

    fn request(
        &mut self,
        id: &Value,
        method: &str,
        params: Option<&Value>,
        out: &mut Vec<Outgoing>,
    ) -> Result<Step, NoMemory>
        ensures answers { OnOk result (Adds out.old.items out.new.items (view id.now ∷ [])) }
        ensures step { OnOk result (KeepsStep L.files self.old.space.sources.library self.old.space.sources.texts self.new.space.sources.library self.new.space.sources.texts) }
        ensures over { OnOk result (KeepsOver self.old.space.open self.old.space.sources.texts self.new.space.open self.new.space.sources.texts) }
        ensures picture { OnOk result (KeepsPicture out.old.items (told_of self.old.told) out.new.items (told_of self.new.told)) }
    {
        let answer = self.answer(method, params)?;
        respond(id, answer, out)
    }

    // The answer to a request.
    fn answer(&mut self, method: &str, params: Option<&Value>) -> Result<Answer, NoMemory>
        ensures step { OnOk result (KeepsStep L.files self.old.space.sources.library self.old.space.sources.texts self.new.space.sources.library self.new.space.sources.texts) }
        ensures over { OnOk result (KeepsOver self.old.space.open self.old.space.sources.texts self.new.space.open self.new.space.sources.texts) }
        ensures told { self.new.told ≡ self.old.told }
    {
        let method = request_of(method);
        match self.phase {
            Phase::New => match method {
                RequestMethod::Initialize => self.initialize(params),
                _ => Ok(Answer::Refused(ErrorCode::NotInitialized)),
            },
            Phase::Serving => match method {
                RequestMethod::Initialize => Ok(Answer::Refused(ErrorCode::InvalidRequest)),
                RequestMethod::Shutdown => {
                    self.phase = Phase::ShutDown;
                    Ok(Answer::Given(Value::Null))
                }
                RequestMethod::Unknown => Ok(Answer::Refused(ErrorCode::MethodNotFound)),
                _ => self.ask(method, params),
            },
            Phase::ShutDown => Ok(Answer::Refused(ErrorCode::InvalidRequest)),
        }
    }

    // The answer to a request about texts.
    fn ask(&self, method: RequestMethod, params: Option<&Value>) -> Result<Answer, NoMemory> {
        let Some(params) = params else {
            return Ok(Answer::Refused(ErrorCode::InvalidParams));
        };
        match self.space.asked(method, params)? {
            Some(value) => Ok(Answer::Given(value)),
            None => Ok(Answer::Refused(ErrorCode::InvalidParams)),
        }
    }

    fn initialize(&mut self, params: Option<&Value>) -> Result<Answer, NoMemory>
        ensures step { OnOk result (KeepsStep L.files self.old.space.sources.library self.old.space.sources.texts self.new.space.sources.library self.new.space.sources.texts) }
        ensures over { OnOk result (KeepsOver self.old.space.open self.old.space.sources.texts self.new.space.open self.new.space.sources.texts) }
        ensures told { self.new.told ≡ self.old.told }
    {
        if let Some(params) = params {
            self.space.start(params)?;
        }
        self.phase = Phase::Serving;
        let given = capabilities(self.space.alloc, self.space.counting)?;
        Ok(Answer::Given(given))
    }

    // Does what a notice asks for.
    fn notice<D: Folders>(
        &mut self,
        disk: &D,
        method: &str,
        params: Option<&Value>,
        out: &mut Vec<Outgoing>,
    ) -> Result<Step, NoMemory>
        ensures answers { OnOk result (AddsNone out.old.items out.new.items) }
        ensures step { OnOk result (KeepsStep L.files self.old.space.sources.library self.old.space.sources.texts self.new.space.sources.library self.new.space.sources.texts) }
        ensures over { OnOk result (KeepsOver self.old.space.open self.old.space.sources.texts self.new.space.open self.new.space.sources.texts) }
        ensures picture { OnOk result (KeepsPicture out.old.items (told_of self.old.told) out.new.items (told_of self.new.told)) }
        ensures found { OnOk result ((is_serving self.old.phase && is_followed (notice_of method.now)) ≡ true → L.finds (L.files self.new.space.sources.library) (L.found self.new.space.sources.library)) }
        ensures told { OnOk result ((is_serving self.old.phase && is_followed (notice_of method.now)) ≡ true → IsTold self.new.space.counting self.new.space.sources.texts (λ name. is_some (held self.new.space.open name)) (told_of self.new.told) (L.found self.new.space.sources.library)) }
    {
        let method = notice_of(method);
        if self.is_checked(method) {
            self.follow(disk, method, params, out)?;
            return Ok(Step::On);
        }
        match method {
            NoticeMethod::Exit => Ok(Step::Exit(self.phase == Phase::ShutDown)),
            _ => Ok(Step::On),
        }
    }

    // Whether all files are checked after a notice.
    fn is_checked(&self, method: NoticeMethod) -> bool
        ensures { result ≡ (is_serving self.now.phase && is_followed method) }
    {
        self.phase.is_serving() && is_followed(method)
    }

    // Brings documents and files to what a notice tells, and tells the client what is found then.
    fn follow<D: Folders>(
        &mut self,
        disk: &D,
        method: NoticeMethod,
        params: Option<&Value>,
        out: &mut Vec<Outgoing>,
    ) -> Result<(), NoMemory>
        ensures answers { OnOk result (AddsNone out.old.items out.new.items) }
        ensures step { OnOk result (KeepsStep L.files self.old.space.sources.library self.old.space.sources.texts self.new.space.sources.library self.new.space.sources.texts) }
        ensures over { OnOk result (KeepsOver self.old.space.open self.old.space.sources.texts self.new.space.open self.new.space.sources.texts) }
        ensures picture { OnOk result (KeepsPicture out.old.items (told_of self.old.told) out.new.items (told_of self.new.told)) }
        ensures found { OnOk result (L.finds (L.files self.new.space.sources.library) (L.found self.new.space.sources.library)) }
        ensures told { OnOk result (IsTold self.new.space.counting self.new.space.sources.texts (λ name. is_some (held self.new.space.open name)) (told_of self.new.told) (L.found self.new.space.sources.library)) }
    {
        self.space.follow(disk, method, params, out)?;
        self.tell(out)
    }
}

// Whether a notice tells of documents or files.
fn is_followed(method: NoticeMethod) -> bool
    ensures { result ≡ is_followed method }
{
    match method {
        NoticeMethod::Exit | NoticeMethod::Unknown => false,
        _ => true,
    }
}

// Refuses a body that is no JSON.
fn refuse_body(error: Error, out: &mut Vec<Outgoing>) -> Result<Step, NoMemory>
    ensures answers { OnOk result (Adds out.old.items out.new.items (null ∷ [])) }
    ensures memory { OnOk result (¬ IsMemory error) }
    ensures picture { OnOk result (TellsNothing out.old.items out.new.items) }
{
    if error.is_memory() {
        return Err(NoMemory);
    }
    refuse_unknown(out, ErrorCode::ParseError)
}

// The id where nobody knows one.
fn no_id() -> Value
    ensures { view result ≡ null }
{
    Value::Null
}

// Refuses what has no id that anybody knows.
fn refuse_unknown(out: &mut Vec<Outgoing>, code: ErrorCode) -> Result<Step, NoMemory>
    ensures answers { OnOk result (Adds out.old.items out.new.items (null ∷ [])) }
    ensures picture { OnOk result (TellsNothing out.old.items out.new.items) }
{
    let id = no_id();
    out.push(Outgoing::Refusal(id, code))?;
    Ok(Step::On)
}

// Answers a request.
#[tactic(auto, using(crate::proofs::Answered::answered_push, crate::proofs::Pictured::after_push))]
fn respond(id: &Value, answer: Answer, out: &mut Vec<Outgoing>) -> Result<Step, NoMemory>
    ensures answers { OnOk result (Adds out.old.items out.new.items (view id.now ∷ [])) }
    ensures picture { OnOk result (TellsNothing out.old.items out.new.items) }
{
    let sent = answer_to(id, answer)?;
    out.push(sent)?;
    Ok(Step::On)
}

fn answer_to(id: &Value, answer: Answer) -> Result<Outgoing, NoMemory>
    ensures answers { IfOk result (λ sent. answered_id sent ≡ view id.now ∷ []) }
    ensures silent { IfOk result (λ sent. (name : List ℕ) (had : Data) → after_message name had sent ≡ had) }
{
    let Ok(id) = id.clone() else {
        drop(answer);
        return Err(NoMemory);
    };
    Ok(answer.into_message(id))
}
