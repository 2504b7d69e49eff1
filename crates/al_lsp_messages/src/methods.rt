// The methods that a client may name.
ghost use Rattle.std.specs.Prelude.{◌≡◌};
ghost use Rattle.al_lsp_messages.specs.Methods.{request_of, notice_of, document_notice};

/// What a request asks for.
#[derive(Clone, Copy, Debug, PartialEq, Eq)]
pub enum RequestMethod {
    Initialize,
    Shutdown,
    DocumentSymbol,
    WorkspaceSymbol,
    Definition,
    Hover,
    References,
    Completion,
    Unknown,
}

/// What a notice tells.
#[derive(Clone, Copy, Debug, PartialEq, Eq)]
pub enum NoticeMethod {
    Initialized,
    Exit,
    DidOpen,
    DidChange,
    DidSave,
    DidClose,
    DidChangeWatchedFiles,
    Unknown,
}

pub fn request_of(method: &str) -> RequestMethod
    ensures { result ≡ request_of method.now }
{
    if method == "initialize" {
        RequestMethod::Initialize
    } else if method == "shutdown" {
        RequestMethod::Shutdown
    } else if method == "textDocument/documentSymbol" {
        RequestMethod::DocumentSymbol
    } else if method == "workspace/symbol" {
        RequestMethod::WorkspaceSymbol
    } else if method == "textDocument/definition" {
        RequestMethod::Definition
    } else if method == "textDocument/hover" {
        RequestMethod::Hover
    } else if method == "textDocument/references" {
        RequestMethod::References
    } else if method == "textDocument/completion" {
        RequestMethod::Completion
    } else {
        RequestMethod::Unknown
    }
}

fn document_notice(method: &str) -> NoticeMethod
    ensures { result ≡ document_notice method.now }
{
    if method == "textDocument/didOpen" {
        NoticeMethod::DidOpen
    } else if method == "textDocument/didChange" {
        NoticeMethod::DidChange
    } else if method == "textDocument/didSave" {
        NoticeMethod::DidSave
    } else if method == "textDocument/didClose" {
        NoticeMethod::DidClose
    } else {
        NoticeMethod::Unknown
    }
}

pub fn notice_of(method: &str) -> NoticeMethod
    ensures { result ≡ notice_of method.now }
{
    if method == "initialized" {
        NoticeMethod::Initialized
    } else if method == "exit" {
        NoticeMethod::Exit
    } else if method == "workspace/didChangeWatchedFiles" {
        NoticeMethod::DidChangeWatchedFiles
    } else {
        document_notice(method)
    }
}
