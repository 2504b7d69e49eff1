// What the command line asks for.
use crate::looks::Looks;
use crate::options::{Options, Parsed};
use al_explain::code_named;
use al_folder::{number_of, unit_of};
use al_folder_served::{
    DependsForm, Disk, Failure, Form, LoadRequest, Pace, PathKind, Request, folder_path,
};
use std::alloc::Global;

pub const USAGE: &str =
    "usage: adabuild [--run] [--steps N] [--tick N] [--order] [--depends make|dot|text] [--plain] [--all] [--format json|sarif] [--image FILE [--force]] [--watch] UNIT .. [FOLDER ..]
       adabuild -P FILE.gpr [OPTION ..] [UNIT ..] [FOLDER ..]
       adabuild --load FILE [--steps N] [--tick N]
       adabuild --explain CODE | --help | --version
";

pub const HELP: &str =
    "usage: adabuild [--run] [--steps N] [--tick N] [--order] [--depends make|dot|text] [--plain] [--all] [--format json|sarif] [--image FILE [--force]] [--watch] UNIT .. [FOLDER ..]
       adabuild -P FILE.gpr [OPTION ..] [UNIT ..] [FOLDER ..]
       adabuild --load FILE [--steps N] [--tick N]
       adabuild --explain CODE | --help | --version
       .. with either: [--trace FILE [--from N]] [--profile] [--listing]

Builds the program of the main procedure UNIT, hello or hello.adb, from the
files .ads and .adb of the folders, the present one if none is named. Only the
files that it needs are opened, by the names that GNAT gives them. Folders
inside these folders aren't read.

  --run         runs the program
  --steps N     ends a run after N steps, 1 to 1000000000
  --tick N      a tick of the program's clock after N instructions, 1 to 10000;
                100 by default
  --order       prints the order of elaboration
  --depends F   prints the files of the program and on which others each
                depends, as make, dot or text, and builds nothing
  --plain       prints errors without lines of source and notes
  --all         checks all files of the folders, and lists units too that weren't
                checked since others are wrong
  --format F    prints errors, builds and ends of runs as json, an object a line,
                or errors as sarif, one document
  --explain C   prints what an error's code means, as E402; all: each code's page
  --image FILE  writes the image to FILE, unless FILE is there and isn't an image
  --force       writes the image whatever FILE is
  --load FILE   runs the image in FILE, and builds nothing
  -P FILE.gpr   uses Source_Dirs, Excluded_Source_Files and Main of a project
  --trace FILE  writes what tasks did in the run, as the ending of FILE says: .txt
                lines, .vcd for GTKWave, .json for Perfetto, .svg a chart
  --from N      begins the trace after N events
  --profile     prints how many instructions of the run lines and bodies had
  --listing     prints the code with its lines and tables
  --watch       goes on: at each line of the standard input the files are read
                and built again; the words are run, order, checked,
                why UNIT, obsolete and quit

The exit status is 0, 1 if there is no program, 2 if the words have another
form, 3 if an exception ended the run.
";

pub const VERSION: &str = "adabuild 1\n";

const DEFAULT_TICK: u32 = 100;

const MAX_TICK: u32 = 10_000;

const MAX_STEPS: u32 = 1_000_000_000;

/// What is asked for.
pub enum Asked<'a> {
    Help,
    Version,
    /// The page of a code; all pages if it is `None`.
    Explain(Option<u16>),
    Load(LoadAsked<'a>),
    Build(BuildAsked<'a>),
    /// The command line is wrong, and this line says how.
    Wrong(String),
}

impl Drop for Asked<'_> {
    fn drop(self) {
        match self {
            Asked::Help => {}
            Asked::Version => {}
            Asked::Explain(_) => {}
            Asked::Load(_) => {}
            Asked::Build(_) => {}
            Asked::Wrong(_) => {}
        }
    }
}

/// The run of an image that is asked for.
pub struct LoadAsked<'a> {
    pub request: LoadRequest<'a>,
    pub looks: Looks<'a>,
}

impl Drop for LoadAsked<'_> {
    fn drop(self) {
        let LoadAsked {
            request: _,
            looks: _,
        } = self;
    }
}

/// The builds that are asked for.
pub struct BuildAsked<'a> {
    pub request: Request<'a>,
    pub looks: Looks<'a>,
}

impl Drop for BuildAsked<'_> {
    fn drop(self) {
        let BuildAsked {
            request: _,
            looks: _,
        } = self;
    }
}

/// What the command line asks for, which begins with the program's own name.
///
/// # Errors
///
/// A [`Failure`] if memory runs out.
pub fn read_words<'a, D: Disk>(
    alloc: Global,
    disk: &D,
    words: &'a [String],
) -> Result<Asked<'a>, Failure> {
    let options = match Options::of(alloc, words)? {
        Parsed::Options(options) => options,
        Parsed::Wrong(line) => return Ok(Asked::Wrong(line)),
    };
    if options.help {
        return Ok(Asked::Help);
    }
    if options.version {
        return Ok(Asked::Version);
    }
    if let Some(word) = options.explain {
        return explained(alloc, word);
    }
    let tick = match number_in(options.tick, MAX_TICK) {
        Ok(tick) => tick.unwrap_or(DEFAULT_TICK),
        Err(word) => return wrong_number(alloc, "--tick", word, MAX_TICK),
    };
    let steps = match number_in(options.steps, MAX_STEPS) {
        Ok(steps) => steps,
        Err(word) => return wrong_number(alloc, "--steps", word, MAX_STEPS),
    };
    let pace = Pace { tick, steps };
    let looks = match Looks::of(&options) {
        Ok(looks) => looks,
        Err(line) => return wrong(alloc, line),
    };
    match options.load {
        Some(file) => load_of(alloc, &options, file, pace, looks),
        None => build_of(alloc, disk, options, pace, looks),
    }
}

// The code whose page is asked for.
fn explained<'a>(alloc: Global, word: &str) -> Result<Asked<'a>, Failure> {
    if word == "all" {
        return Ok(Asked::Explain(None));
    }
    let Some(code) = code_named(word.as_bytes()) else {
        let line = format!(in alloc; "error: {word} is no code: CODE is as E402, or all")?;
        return Ok(Asked::Wrong(line));
    };
    Ok(Asked::Explain(Some(code)))
}

// The number in a word, if there is a word; if that isn't a number from 1 to `most`, the word.
fn number_in<'a>(word: Option<&'a str>, most: u32) -> Result<Option<u32>, &'a str> {
    match word {
        Some(word) => match number_of(most, word) {
            Some(number) => Ok(Some(number)),
            None => Err(word),
        },
        None => Ok(None),
    }
}

fn wrong_number<'a>(
    alloc: Global,
    option: &str,
    word: &str,
    most: u32,
) -> Result<Asked<'a>, Failure> {
    let line = format!(in alloc; "error: {option} {word}: N is 1 to {most}")?;
    Ok(Asked::Wrong(line))
}

fn wrong<'a>(alloc: Global, line: &str) -> Result<Asked<'a>, Failure> {
    Ok(Asked::Wrong(String::from_str(alloc, line)?))
}

// The run of an image, if the words ask for nothing else.
fn load_of<'a>(
    alloc: Global,
    options: &Options<'a>,
    file: &'a str,
    pace: Pace,
    looks: Looks<'a>,
) -> Result<Asked<'a>, Failure> {
    let builds = options.run || options.order || options.plain || options.watch || options.all;
    if builds
        || options.force
        || options.image.is_some()
        || options.project.is_some()
        || options.depends.is_some()
        || options.format.is_some()
        || !options.names.is_empty()
    {
        return wrong(
            alloc,
            "error: --load FILE builds nothing, and takes only --steps, --tick, --trace, --from, --profile and --listing",
        );
    }
    let request = LoadRequest { file, pace };
    Ok(Asked::Load(LoadAsked { request, looks }))
}

// The build of units.
fn build_of<'a, D: Disk>(
    alloc: Global,
    disk: &D,
    options: Options<'a>,
    pace: Pace,
    looks: Looks<'a>,
) -> Result<Asked<'a>, Failure> {
    let depends = match depends_in(options.depends) {
        Ok(depends) => depends,
        Err(word) => return wrong_form(alloc, word),
    };
    let Some(form) = form_in(options.format) else {
        return wrong(alloc, "error: --format is json or sarif");
    };
    let mut request = request_of(alloc, &options, depends, form, pace);
    for word in options.names.iter() {
        if !add_name(alloc, disk, word, &mut request)? {
            return wrong_name(alloc, word);
        }
    }
    if let Some(line) = misfit_of(&request) {
        return wrong(alloc, line);
    }
    if request.folders.is_empty() && request.project.is_none() {
        add_folder(&mut request, folder_path(alloc, ".")?)?;
    }
    Ok(Asked::Build(BuildAsked { request, looks }))
}

// The form in a word, if there is a word; if that isn't a form, the word.
fn depends_in<'a>(word: Option<&'a str>) -> Result<Option<DependsForm>, &'a str> {
    match word {
        None => Ok(None),
        Some("make") => Ok(Some(DependsForm::Make)),
        Some("dot") => Ok(Some(DependsForm::Dot)),
        Some("text") => Ok(Some(DependsForm::Text)),
        Some(word) => Err(word),
    }
}

// The form of diagnostics in a word, if there is a word; `None` if it isn't a form.
fn form_in(word: Option<&str>) -> Option<Form> {
    match word {
        None => Some(Form::Text),
        Some("json") => Some(Form::Json),
        Some("sarif") => Some(Form::Sarif),
        Some(_) => None,
    }
}

fn wrong_form<'a>(alloc: Global, word: &str) -> Result<Asked<'a>, Failure> {
    let line = format!(in alloc; "error: --depends {word}: the form is make, dot or text")?;
    Ok(Asked::Wrong(line))
}

fn wrong_name<'a>(alloc: Global, word: &str) -> Result<Asked<'a>, Failure> {
    let line = format!(in alloc;
        "error: {word} isn't a unit: UNIT is a name, hello, or the file of its body, hello.adb"
    )?;
    Ok(Asked::Wrong(line))
}

// The build that the options ask for, without its units and folders.
fn request_of<'a>(
    alloc: Global,
    options: &Options<'a>,
    depends: Option<DependsForm>,
    form: Form,
    pace: Pace,
) -> Request<'a> {
    Request {
        units: Vec::new(alloc),
        folders: Vec::new(alloc),
        excluded: Vec::new(alloc),
        project: options.project,
        all: options.all,
        run: options.run,
        order: options.order,
        plain: options.plain,
        watch: options.watch,
        force: options.force,
        image: options.image,
        depends,
        form,
        pace,
    }
}

// What in a request doesn't fit together, if anything.
fn misfit_of(request: &Request<'_>) -> Option<&'static str> {
    if request.units.is_empty() && request.project.is_none() {
        return Some("error: UNIT is missing, the main procedure");
    }
    if request.depends.is_some() && request.watch {
        return Some("error: --depends builds nothing, and --watch goes on building");
    }
    if request.units.len() > 1 && (request.image.is_some() || request.watch) {
        return Some("error: --image FILE and --watch take one UNIT");
    }
    None
}

// Adds the folder or the unit that a word names. Gives whether it names one.
fn add_name<D: Disk>(
    alloc: Global,
    disk: &D,
    word: &str,
    request: &mut Request<'_>,
) -> Result<bool, Failure> {
    if !request.units.is_empty() && names_folder(disk, word) {
        add_folder(request, folder_path(alloc, word)?)?;
        return Ok(true);
    }
    add_unit(alloc, word, request)
}

// Whether a word after the first UNIT names a folder: there is one, or no unit has such a name.
fn names_folder<D: Disk>(disk: &D, word: &str) -> bool {
    if word.ends_with(".adb") {
        return false;
    }
    match disk.status(word) {
        Ok(status) => matches!(status.kind, PathKind::Folder) || word.contains('/'),
        Err(_) => word.contains('/'),
    }
}

// Adds the unit that a word names, and the folder before it. Gives whether it names one.
fn add_unit(alloc: Global, word: &str, request: &mut Request<'_>) -> Result<bool, Failure> {
    let (folder, name) = match word.rsplit_once('/') {
        Some((folder, name)) => (Some(folder), name),
        None => (None, word),
    };
    if name.ends_with(".ads") {
        return Ok(false);
    }
    let Some(unit) = unit_of(alloc, name.as_bytes())? else {
        return Ok(false);
    };
    if let Some(folder) = folder {
        let folder = if folder.is_empty() { "/" } else { folder };
        add_folder(request, folder_path(alloc, folder)?)?;
    }
    if !request.units.contains(&unit) {
        request.units.push(unit)?;
    }
    Ok(true)
}

// Adds a folder, unless it is there.
fn add_folder(request: &mut Request<'_>, folder: String) -> Result<(), Failure> {
    if !request.folders.contains(&folder) {
        request.folders.push(folder)?;
    }
    Ok(())
}
