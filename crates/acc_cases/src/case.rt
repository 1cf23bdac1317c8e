//! One case: what its files say, and what comes of it.

ghost use Rattle.std.specs.Prelude.{◌≡◌, ◌++◌, IfOk, IfErr, Some, codes, option_map, string_bytes};
ghost use Rattle.acc_cases.specs.declared.fault.CaseFault.TheVariants.{Memory};
ghost use Rattle.acc_cases.specs.declared.fault.Kind.TheVariants.{Script};
ghost use Rattle.acc_cases.specs.Cases.{Came, AskedComes, IsFaultOf, IsLineFault, IsTextsFault, IsFaultLine, IsUnread, asked_in, asked_case, ending_of, held, options_by, texts_of};
ghost use Rattle.acc_cases.specs.Folders.{Known};

use crate::fault::{CaseFault, Kind};
use crate::folder::{Folder, FolderFault};
use crate::options::{OptionsFault, options_of};
use acc_driver::{Options, Remains, ReplayFault, replay_texts, split};
use std::alloc::{AllocError, Global};

/// What a case is asked with: its script, maybe with a schedule behind it, the schedule of its own, the line of its options, and
/// the options that all cases have in common.
#[derive(Drop)]
pub(crate) struct Case {
    pub(crate) script: Vec<u8>,
    pub(crate) schedule: Option<Vec<u8>>,
    pub(crate) line: Option<Vec<u8>>,
    pub(crate) common: Options,
}

// The name of a case's file.
pub(crate) fn file_name(alloc: Global, name: &str, kind: Kind) -> Result<String, AllocError>
    ensures { IfOk result (λ file. string_bytes file ≡ name.now ++ ending_of kind) }
{
    let mut file = String::new(alloc);
    file.push_str(name)?;
    file.push_str(kind.ending())?;
    Ok(file)
}

// What a case's file holds, if there is one.
pub(crate) fn read_file<F: Folder>(
    alloc: Global,
    folder: &F,
    name: &str,
    kind: Kind,
) -> Result<Option<Vec<u8>>, CaseFault>
    ensures bytes { Known (F.files folder.now) (λ fs.
        IfOk result (λ b. option_map (λ v. v.items) b ≡ held fs name.now kind)) }
    ensures fault { Known (F.files folder.now) (λ fs. IfErr result (λ f. f ≡ Memory)) }
{
    let file = match file_name(alloc, name, kind) {
        Ok(file) => file,
        Err(_) => return Err(CaseFault::Memory),
    };
    match folder.read(alloc, file.as_str()) {
        Ok(bytes) => Ok(Some(bytes)),
        Err(FolderFault::Missing) => Ok(None),
        Err(FolderFault::Unusable) => Err(CaseFault::Unread(kind)),
        Err(FolderFault::Memory) => Err(CaseFault::Memory),
    }
}

// The case of a name.
pub(crate) fn read_case<F: Folder>(
    alloc: Global,
    folder: &F,
    name: &str,
    common: Options,
) -> Result<Case, CaseFault>
    ensures read { Known (F.files folder.now) (λ fs.
        IfOk result (λ case. held fs name.now Script ≡ Some (asked_case case).script)) }
    ensures asked { Known (F.files folder.now) (λ fs.
        IfOk result (λ case.
        asked_case case ≡ asked_in fs name.now common (asked_case case).script)) }
    ensures fault { Known (F.files folder.now) (λ fs. IfErr result (λ f. IsUnread fs name.now f)) }
{
    let script = match read_file(alloc, folder, name, Kind::Script) {
        Ok(Some(script)) => script,
        Ok(None) => return Err(CaseFault::Unread(Kind::Script)),
        Err(fault) => return Err(fault),
    };
    let schedule = match read_file(alloc, folder, name, Kind::Schedule) {
        Ok(schedule) => schedule,
        Err(fault) => return Err(fault),
    };
    let line = match read_file(alloc, folder, name, Kind::Line) {
        Ok(line) => line,
        Err(fault) => return Err(fault),
    };
    Ok(Case {
        script,
        schedule,
        line,
        common,
    })
}

impl Case {
    /// What comes of the case: the report, or the line that tells why there is none.
    pub(crate) fn came(&self, alloc: Global) -> Result<Vec<u8>, CaseFault>
        ensures came { IfOk result (λ came. AskedComes (asked_case self.now) came.items) }
        ensures fault { IfErr result (λ f. IsFaultOf (asked_case self.now) f) }
    {
        let (script, schedule) = match texts_of(self.script.as_slice(), &self.schedule) {
            Ok(texts) => texts,
            Err(fault) => return Err(fault),
        };
        let options = match options_by(alloc, &self.line, self.common) {
            Ok(options) => options,
            Err(fault) => return Err(fault),
        };
        replayed(alloc, script, schedule, options)
    }
}

// The script and the schedule.
fn texts_of<'a>(
    script: &'a [u8],
    schedule: &'a Option<Vec<u8>>,
) -> Result<(&'a [u8], &'a [u8]), CaseFault>
    ensures texts { IfOk result (λ t.
        texts_of script.now (option_map (λ v. v.items) schedule.now)
        ≡ Some (record { script = t.0.now; schedule = t.1.now })) }
    ensures fault { IfErr result (λ f.
        IsTextsFault script.now (option_map (λ v. v.items) schedule.now) f) }
{
    let (own, behind) = split(script);
    let is_parted = own.len() < script.len();
    match schedule {
        Some(schedule) if !is_parted => Ok((script, schedule.as_slice())),
        Some(_) => Err(CaseFault::TwoSchedules),
        None if is_parted => Ok((own, behind)),
        None => Err(CaseFault::Unread(Kind::Schedule)),
    }
}

// The options of a line, or the common ones where there is none.
fn options_by(alloc: Global, line: &Option<Vec<u8>>, common: Options) -> Result<Options, CaseFault>
    ensures options { IfOk result (λ o.
        options_by common (option_map (λ v. v.items) line.now) ≡ Some o) }
    ensures fault { IfErr result (λ f. IsLineFault common (option_map (λ v. v.items) line.now) f) }
{
    let Some(line) = line else {
        return Ok(common);
    };
    match options_of(alloc, line.as_slice(), common) {
        Ok(options) => Ok(options),
        Err(OptionsFault::Word(word)) => match Vec::from_slice(alloc, word) {
            Ok(word) => Err(CaseFault::Options(word)),
            Err(_) => Err(CaseFault::Memory),
        },
        Err(OptionsFault::Memory) => Err(CaseFault::Memory),
    }
}

// What comes of two texts.
fn replayed(
    alloc: Global,
    script: &[u8],
    schedule: &[u8],
    options: Options,
) -> Result<Vec<u8>, CaseFault>
    ensures came { IfOk result (λ came.
        Came options (record { script = script.now; schedule = schedule.now }) came.items) }
    ensures fault { IfErr result (λ f. f ≡ Memory) }
{
    let mut written = Vec::new(alloc);
    let mut remains = Remains::nothing();
    let answer = replay_texts(alloc, script, schedule, options, &mut written, &mut remains);
    match answer {
        Ok(_) => Ok(written),
        Err(ReplayFault::Memory | ReplayFault::Output) => Err(CaseFault::Memory),
        Err(fault) => match line_of(alloc, fault) {
            Ok(line) => Ok(line),
            Err(_) => Err(CaseFault::Memory),
        },
    }
}

// The line that tells a fault.
fn line_of(alloc: Global, fault: ReplayFault) -> Result<Vec<u8>, AllocError>
    ensures { IfOk result (λ line. IsFaultLine line.items) }
{
    let text = format!(in alloc; "{fault}")?;
    let mut line = Vec::from_slice(alloc, b"accq: ")?;
    line.extend_from_slice(text.as_bytes())?;
    line.push(b'\n')?;
    Ok(line)
}
