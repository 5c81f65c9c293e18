//! The rows of the table of commands: the words behind a command, and the call that they ask for.

ghost use Rattle.std.specs.Prelude.{◌≡◌, ◌==◌, ◌∷◌, [], length, false, Err, IfErr, IfOk, MatchResult, Ok};
ghost use Rattle.std.specs.List.{list_any};
ghost use Rattle.watchtree_script.specs.Commands.{one, two, three, path_of, paths_of, a_path, old_and_new};
ghost use Rattle.watchtree_script.specs.Commands.{path_and_mode, id_and_bytes, write_call, cat_call, truncate_call};
ghost use Rattle.watchtree_script.specs.Commands.{rename2_call, watch_call, unwatch_call, asking, line_asked};
ghost use Rattle.watchtree_script.specs.Reading.{GivesPath, GivesLine};
ghost use Rattle.watchtree_script.specs.Words.{is_escaped};
ghost use Rattle.tree_core.specs.declared.call.Call.TheVariants as call;

use crate::fault::ScriptFault;
use crate::line::{Command, Line, LineError, OutputFormat};
use crate::pieces::Words;
use crate::words::{hex_word, i32_word, mask_word, mode_word, path_word, u32_word, u64_word};
use std::alloc::Global;
use tree_core::Call;
use tree_ops::FileCall;
use tree_paths::{Path, Refusal};

/// Reads the words behind a command.
#[derive(Drop)]
pub(crate) struct Parser<'a> {
    alloc: Global,
    /// The limit of an instance that names none.
    queue: u32,
    /// Whether a byte of a word may be escaped.
    may_escape: bool,
    words: Words<'a>,
    ghost plain: { may_escape ≡ false → list_any is_escaped words ≡ false },
}

impl<'a> Parser<'a> {
    pub fn new(alloc: Global, queue: u32, words: Words<'a>, may_escape: bool) -> Parser<'a>
        requires { may_escape ≡ false → list_any is_escaped words ≡ false }
        ensures queue { result.queue ≡ queue }
        ensures words { result.words ≡ words.entry }
        ensures escape { result.may_escape ≡ may_escape }
    {
        Parser {
            alloc,
            queue,
            may_escape,
            words,
        }
    }

    /// What a command asks for with the words behind it, as the table of commands says.
    #[inline(always)]
    pub fn line_asked(&self, command: Command) -> Result<Line, LineError>
        ensures { GivesLine result (line_asked self.now.queue command self.now.words) }
    {
        match command {
            Command::Mkdir => self.mkdir(),
            Command::Create => self.create(),
            Command::Write => self.write(),
            Command::Cat => self.cat(),
            Command::Truncate => self.truncate(),
            Command::Chmod => self.chmod(),
            Command::Link => self.link(),
            Command::Unlink => self.unlink(),
            Command::Rmdir => self.rmdir(),
            Command::Rename => self.rename(),
            Command::Rename2 => self.rename2(),
            Command::Stat => self.stat(),
            Command::List => self.list(),
            Command::Init => self.init(),
            Command::Watch => self.watch(),
            Command::Unwatch => self.unwatch(),
            Command::Read => self.read(OutputFormat::Records),
            Command::Hex => self.read(OutputFormat::Hexadecimal),
            Command::Close => self.close(),
            Command::Cut => self.cut(),
        }
    }

    fn mkdir(&self) -> Result<Line, LineError>
        ensures { GivesLine result (line_asked self.now.queue Command.Mkdir self.now.words) }
    {
        let (path, mode) = self.path_and_mode()?;
        Ok(plain(Call::File(FileCall::Mkdir { path, mode })))
    }

    fn create(&self) -> Result<Line, LineError>
        ensures { GivesLine result (line_asked self.now.queue Command.Create self.now.words) }
    {
        let (path, mode) = self.path_and_mode()?;
        Ok(plain(Call::File(FileCall::Create { path, mode })))
    }

    #[tactic(auto, unfolding(crate::specs::Commands::write_call))]
    fn write(&self) -> Result<Line, LineError>
        ensures { GivesLine result (line_asked self.now.queue Command.Write self.now.words) }
    {
        let (path, offset, bytes) = self.three()?;
        let text = path_word(self.alloc, path, self.may_escape)?;
        let offset = u64_word(offset)?;
        let bytes = hex_word(self.alloc, bytes)?;
        let path = path_of(self.alloc, text.as_slice())?;
        Ok(plain(Call::File(FileCall::Write {
            path,
            offset,
            bytes,
        })))
    }

    #[tactic(auto, unfolding(crate::specs::Commands::cat_call))]
    fn cat(&self) -> Result<Line, LineError>
        ensures { GivesLine result (line_asked self.now.queue Command.Cat self.now.words) }
    {
        let (path, offset, count) = self.three()?;
        let text = path_word(self.alloc, path, self.may_escape)?;
        let offset = u64_word(offset)?;
        let count = u32_word(count)?;
        let path = path_of(self.alloc, text.as_slice())?;
        Ok(plain(Call::File(FileCall::ReadFile {
            path,
            offset,
            count,
        })))
    }

    #[tactic(auto, unfolding(crate::specs::Commands::truncate_call))]
    fn truncate(&self) -> Result<Line, LineError>
        ensures { GivesLine result (line_asked self.now.queue Command.Truncate self.now.words) }
    {
        let (path, len) = self.two()?;
        let text = path_word(self.alloc, path, self.may_escape)?;
        let len = u64_word(len)?;
        let path = path_of(self.alloc, text.as_slice())?;
        Ok(plain(Call::File(FileCall::Truncate { path, len })))
    }

    fn chmod(&self) -> Result<Line, LineError>
        ensures { GivesLine result (line_asked self.now.queue Command.Chmod self.now.words) }
    {
        let (path, mode) = self.path_and_mode()?;
        Ok(plain(Call::File(FileCall::Chmod { path, mode })))
    }

    #[tactic(auto, using(crate::proofs::WordLemmas::plain_paths), unfolding(crate::specs::Commands::paths_of))]
    fn link(&self) -> Result<Line, LineError>
        ensures { GivesLine result (line_asked self.now.queue Command.Link self.now.words) }
    {
        let (old, new) = self.two()?;
        if self.may_escape {
            let (old, new) = escaped_paths(self.alloc, old, new)?;
            return Ok(plain(Call::File(FileCall::Link { old, new })));
        }
        let old = old_path_of(self.alloc, old, new)?;
        let new = path_of(self.alloc, new)?;
        Ok(plain(Call::File(FileCall::Link { old, new })))
    }

    fn unlink(&self) -> Result<Line, LineError>
        ensures { GivesLine result (line_asked self.now.queue Command.Unlink self.now.words) }
    {
        let path = self.a_path()?;
        Ok(plain(Call::File(FileCall::Unlink { path })))
    }

    fn rmdir(&self) -> Result<Line, LineError>
        ensures { GivesLine result (line_asked self.now.queue Command.Rmdir self.now.words) }
    {
        let path = self.a_path()?;
        Ok(plain(Call::File(FileCall::Rmdir { path })))
    }

    #[tactic(auto, using(crate::proofs::WordLemmas::plain_paths), unfolding(crate::specs::Commands::paths_of))]
    fn rename(&self) -> Result<Line, LineError>
        ensures { GivesLine result (line_asked self.now.queue Command.Rename self.now.words) }
    {
        let (old, new) = self.two()?;
        if self.may_escape {
            let (old, new) = escaped_paths(self.alloc, old, new)?;
            return Ok(plain(Call::File(FileCall::Rename { old, new })));
        }
        let old = old_path_of(self.alloc, old, new)?;
        let new = path_of(self.alloc, new)?;
        Ok(plain(Call::File(FileCall::Rename { old, new })))
    }

    #[tactic(auto, unfolding(crate::specs::Commands::rename2_call))]
    fn rename2(&self) -> Result<Line, LineError>
        ensures { GivesLine result (line_asked self.now.queue Command.Rename2 self.now.words) }
    {
        let (old, new, flags) = self.three()?;
        let old_text = path_word(self.alloc, old, self.may_escape)?;
        let new_text = path_word(self.alloc, new, self.may_escape)?;
        let flags = u32_word(flags)?;
        let (old, new) = paths_of(self.alloc, old_text.as_slice(), new_text.as_slice())?;
        Ok(plain(Call::File(FileCall::Rename2 { old, new, flags })))
    }

    fn stat(&self) -> Result<Line, LineError>
        ensures { GivesLine result (line_asked self.now.queue Command.Stat self.now.words) }
    {
        let path = self.a_path()?;
        Ok(plain(Call::File(FileCall::Stat { path })))
    }

    fn list(&self) -> Result<Line, LineError>
        ensures { GivesLine result (line_asked self.now.queue Command.List self.now.words) }
    {
        let path = self.a_path()?;
        Ok(plain(Call::File(FileCall::List { path })))
    }

    fn init(&self) -> Result<Line, LineError>
        ensures { GivesLine result (line_asked self.now.queue Command.Init self.now.words) }
    {
        let limit = if self.words.is_empty() {
            self.queue
        } else {
            u32_word(self.one()?)?
        };
        Ok(plain(Call::Init {
            limit,
            piped: false,
        }))
    }

    #[tactic(auto, unfolding(crate::specs::Commands::watch_call))]
    fn watch(&self) -> Result<Line, LineError>
        ensures { GivesLine result (line_asked self.now.queue Command.Watch self.now.words) }
    {
        let (id, path, mask) = self.three()?;
        let instance = u32_word(id)?;
        let text = path_word(self.alloc, path, self.may_escape)?;
        let mask = mask_word(mask)?;
        let path = path_of(self.alloc, text.as_slice())?;
        Ok(plain(Call::AddWatch {
            instance,
            path,
            mask,
        }))
    }

    #[tactic(auto, unfolding(crate::specs::Commands::unwatch_call))]
    fn unwatch(&self) -> Result<Line, LineError>
        ensures { GivesLine result (line_asked self.now.queue Command.Unwatch self.now.words) }
    {
        let (id, wd) = self.two()?;
        let instance = u32_word(id)?;
        let wd = i32_word(wd)?;
        Ok(plain(Call::RmWatch { instance, wd }))
    }

    /// `read` and `hex`, which show the records so.
    #[tactic(auto, unfolding(crate::specs::Commands::id_and_bytes))]
    fn read(&self, format: OutputFormat) -> Result<Line, LineError>
        ensures { GivesLine result (asking format (λ w. call.Read w.0 w.1) (two self.now.words id_and_bytes)) }
    {
        let (id, bytes) = self.two()?;
        let instance = u32_word(id)?;
        let bytes = u32_word(bytes)?;
        Ok(Line::Run {
            call: Call::Read { instance, bytes },
            format,
        })
    }

    fn close(&self) -> Result<Line, LineError>
        ensures { GivesLine result (line_asked self.now.queue Command.Close self.now.words) }
    {
        let instance = u32_word(self.one()?)?;
        Ok(plain(Call::Close { instance }))
    }

    fn cut(&self) -> Result<Line, LineError>
        ensures { GivesLine result (line_asked self.now.queue Command.Cut self.now.words) }
    {
        if self.words.is_empty() {
            Ok(Line::Cut)
        } else {
            Err(LineError::Fault(ScriptFault::WrongNumber))
        }
    }

    /// PATH
    #[tactic(auto, using(crate::proofs::WordLemmas::plain_only), unfolding(crate::specs::Commands::a_path))]
    #[inline(always)]
    fn a_path(&self) -> Result<Path, LineError>
        ensures { GivesPath result (one self.now.words a_path) }
    {
        let word = self.one()?;
        if self.may_escape {
            return escaped_path(self.alloc, word);
        }
        path_of(self.alloc, word)
    }

    /// PATH MODE
    #[tactic(auto, using(crate::proofs::WordLemmas::plain_first), unfolding(crate::specs::Commands::path_and_mode))]
    #[inline(always)]
    fn path_and_mode(&self) -> Result<(Path, u32), LineError>
        ensures { GivesPath result (two self.now.words path_and_mode) }
    {
        let (path, mode) = self.two()?;
        if self.may_escape {
            return escaped_and_mode(self.alloc, path, mode);
        }
        let mode = mode_word(mode)?;
        let path = path_of(self.alloc, path)?;
        Ok((path, mode))
    }

    /// The only word.
    fn one(&self) -> Result<&'a [u8], LineError>
        ensures { MatchResult result (λ word. self.now.words ≡ word.now ∷ [])
            (λ error. (error ≡ LineError.Fault ScriptFault.WrongNumber) × ((length self.now.words == 1) ≡ false)) }
    {
        match self.words.copied().one() {
            Some(word) => Ok(word),
            None => Err(LineError::Fault(ScriptFault::WrongNumber)),
        }
    }

    /// The only two words.
    #[inline(always)]
    fn two(&self) -> Result<(&'a [u8], &'a [u8]), LineError>
        ensures { MatchResult result (λ words. self.now.words ≡ words.0.now ∷ words.1.now ∷ [])
            (λ error. (error ≡ LineError.Fault ScriptFault.WrongNumber) × ((length self.now.words == 2) ≡ false)) }
    {
        match self.words.copied().two() {
            Some((first, second)) => Ok((first, second)),
            None => Err(LineError::Fault(ScriptFault::WrongNumber)),
        }
    }

    /// The only three words.
    #[inline(always)]
    fn three(&self) -> Result<(&'a [u8], &'a [u8], &'a [u8]), LineError>
        ensures { MatchResult result (λ words. self.now.words ≡ words.0.now ∷ words.1.now ∷ words.2.now ∷ [])
            (λ error. (error ≡ LineError.Fault ScriptFault.WrongNumber) × ((length self.now.words == 3) ≡ false)) }
    {
        match self.words.copied().three() {
            Some((first, second, third)) => Ok((first, second, third)),
            None => Err(LineError::Fault(ScriptFault::WrongNumber)),
        }
    }
}

/// PATH, where a byte of it may be escaped.
#[tactic(auto, unfolding(crate::specs::Commands::a_path))]
#[cold]
#[inline(never)]
fn escaped_path(alloc: Global, word: &[u8]) -> Result<Path, LineError>
    ensures { GivesPath result (a_path word.now) }
{
    let text = path_word(alloc, word, true)?;
    path_of(alloc, text.as_slice())
}

/// PATH MODE, where a byte of the path may be escaped.
#[tactic(auto, unfolding(crate::specs::Commands::path_and_mode))]
#[cold]
#[inline(never)]
fn escaped_and_mode(alloc: Global, path: &[u8], mode: &[u8]) -> Result<(Path, u32), LineError>
    ensures { GivesPath result (path_and_mode path.now mode.now) }
{
    let text = path_word(alloc, path, true)?;
    let mode = mode_word(mode)?;
    let path = path_of(alloc, text.as_slice())?;
    Ok((path, mode))
}

/// OLD NEW, where a byte of either may be escaped.
#[tactic(auto, unfolding(crate::specs::Commands::old_and_new))]
#[cold]
#[inline(never)]
fn escaped_paths(alloc: Global, old: &[u8], new: &[u8]) -> Result<(Path, Path), LineError>
    ensures { GivesPath result (old_and_new old.now new.now) }
{
    let old = path_word(alloc, old, true)?;
    let new = path_word(alloc, new, true)?;
    paths_of(alloc, old.as_slice(), new.as_slice())
}

/// The path of a text.
#[tactic(auto, unfolding(crate::specs::Commands::path_of))]
#[inline(always)]
fn path_of(alloc: Global, text: &[u8]) -> Result<Path, LineError>
    ensures { GivesPath result (path_of text.now) }
{
    match Path::parse(alloc, text) {
        Ok(path) => Ok(path),
        Err(Refusal::Enomem) => Err(LineError::PathMemory),
        Err(refusal) => Err(LineError::Refused(refusal)),
    }
}

/// The paths of two texts, of which the old one is read first.
#[tactic(auto, unfolding(crate::specs::Commands::paths_of))]
#[inline(always)]
fn paths_of(alloc: Global, old: &[u8], new: &[u8]) -> Result<(Path, Path), LineError>
    ensures { GivesPath result (paths_of old.now new.now) }
{
    let old = old_path_of(alloc, old, new)?;
    let new = path_of(alloc, new)?;
    Ok((old, new))
}

/// The path of the first of two texts. Where there is no memory for it, the second is refused as such even so, if it is
/// no path.
#[tactic(auto, unfolding(crate::specs::Commands::paths_of))]
#[inline(always)]
fn old_path_of(alloc: Global, old: &[u8], new: &[u8]) -> Result<Path, LineError>
    ensures ok { IfOk result (λ path. path_of old.now ≡ Ok path) }
    ensures err { IfErr result (λ error. GivesPath (Err error) (paths_of old.now new.now)) }
{
    match path_of(alloc, old) {
        Ok(path) => Ok(path),
        Err(LineError::PathMemory) => Err(error_behind(alloc, new)),
        Err(error) => Err(error),
    }
}

/// Why a text is no path, or that there is no memory for the one before it.
#[cold]
#[inline(never)]
fn error_behind(alloc: Global, text: &[u8]) -> LineError
    ensures { GivesPath (Err result) (path_of text.now) }
{
    match path_of(alloc, text) {
        Ok(_) => LineError::PathMemory,
        Err(error) => error,
    }
}

/// A call whose reply is one line.
fn plain(call: Call) -> Line
    ensures { result ≡ Line.Run call OutputFormat.Plain }
{
    Line::Run {
        call,
        format: OutputFormat::Plain,
    }
}
