ghost use Rattle.std.specs.Prelude.{◌≡◌, ◌==◌, ◌++◌, [], IfOk, OnOk, map, option_map, string_bytes};
ghost use Rattle.std.specs.List.{list_all, list_any, slice_split};
ghost use Rattle.std.specs.Str.{bytes_eq};
ghost use Rattle.spm_tool.specs.Words.{
  are_distinct,
  are_roots,
  behind_flag,
  behind_traits,
  behind_value,
  file_in,
  has_flag,
  is_apart,
  is_file_of,
  is_value,
  judge_of,
  judgement_with,
  names_after,
  names_of,
  order_of,
  proof_of,
  shown_of,
  tools_in,
  traits_by,
  traits_in,
  value_of,
  with_new,
  with_shelf,
  with_traits,
};
ghost use Rattle.spm_tool.specs.WordsView.{judgement_view, order_view};

use crate::files::{lock_name, manifest_name, proof_name};
use spm_trait::{TraitFault, TraitName};
use spm_version::{Items, NoMemory, ToolsVersion};
use std::alloc::Global;

/// The version of the tools that is running where the words say none.
pub const RUNNING: ToolsVersion = ToolsVersion {
    major: 6,
    minor: 1,
    patch: 0,
};

/// How many roots the words may name.
const MAX_ROOTS: usize = 64;

/// Which traits of a root the words ask for.
#[derive(Debug, Drop)]
pub enum TraitWords {
    /// Those that are on by default.
    ByDefault,
    /// These, without repeats: `--traits LIST`.
    These(Items<TraitName>),
    /// All that it declares: `--enable-all-traits`.
    All,
    /// None: `--disable-default-traits`.
    Nothing,
}

/// What `resolve` is asked.
#[derive(Drop)]
pub struct Order<'w> {
    /// The name of the shelf file.
    pub shelf: &'w str,
    /// The name of the fingerprint file.
    pub fingerprints: Option<&'w str>,
    /// The version of the tools that is running.
    pub tools: ToolsVersion,
    pub traits: TraitWords,
    /// Whether the derivation of a root without a selection is put into a file.
    pub proofs: bool,
    /// The roots' folders.
    pub roots: &'w [String],
}

/// What `judge` is asked.
#[derive(Drop)]
pub struct Judgement<'w> {
    /// The name of the shelf file.
    pub shelf: &'w str,
    /// The version of the tools that is running.
    pub tools: ToolsVersion,
    /// The root's folder.
    pub root: &'w str,
}

// A value isn't empty and doesn't begin with `-`.
fn is_value(word: &str) -> bool
    ensures { result ≡ is_value word.now }
{
    match word.as_bytes() {
        [] => false,
        [first, ..] => *first != b'-',
    }
}

// Whether the name is among these.
fn is_among(names: &[TraitName], name: &TraitName) -> bool
    ensures { result ≡ list_any (λ other. bytes_eq name.now other) names.now }
{
    names.contains(name)
}

// One name more, without repeats.
fn push_new(names: &mut Items<TraitName>, name: TraitName) -> Result<(), NoMemory>
    ensures { OnOk result (names.new ≡ with_new names.old name) }
{
    if is_among(names.as_slice(), &name) {
        return Ok(());
    }
    names.push(name)?;
    Ok(())
}

// The texts between commas.
fn pieces_of<'w>(alloc: Global, list: &'w str) -> Result<Vec<&'w str>, NoMemory>
    ensures { IfOk result (λ pieces. map (λ piece. piece.now) pieces.items ≡ slice_split (λ byte. byte == 44) list.now) }
{
    list.split(',').collect(alloc)
}

// The names that these texts are, without repeats; none where one of them is no name.
fn names_in(alloc: Global, pieces: &[&str]) -> Result<Option<Items<TraitName>>, NoMemory>
    ensures { IfOk result (λ names. names ≡ names_after [] (map (λ piece. piece.now) pieces.now)) }
{
    let mut names = Items::new(alloc);
    for piece in pieces {
        match TraitName::parse(alloc, piece) {
            Ok(name) => push_new(&mut names, name)?,
            Err(TraitFault::Memory) => return Err(NoMemory),
            Err(_) => return Ok(None),
        }
    }
    Ok(Some(names))
}

// Names of traits, joined by commas; none where one of them is no name.
fn names_of(alloc: Global, list: &str) -> Result<Option<Items<TraitName>>, NoMemory>
    ensures { IfOk result (λ names. names ≡ names_of list.now) }
{
    let pieces = pieces_of(alloc, list)?;
    names_in(alloc, pieces.as_slice())
}

// The value of an option that stands first.
fn value_of<'w>(name: &str, words: &'w [String]) -> Option<&'w str>
    ensures { option_map (λ value. value.now) result ≡ value_of name.now (map string_bytes words.now) }
{
    match words {
        [option, value, ..] if option.as_str() == name => Some(value.as_str()),
        _ => None,
    }
}

// The words behind an option with a value, where it stands first.
fn behind_value<'w>(name: &str, words: &'w [String]) -> &'w [String]
    ensures { map string_bytes result.now ≡ behind_value name.now (map string_bytes words.now) }
{
    match words {
        [option, _, rest @ ..] if option.as_str() == name => rest,
        _ => words,
    }
}

// Whether a flag stands first.
fn has_flag(flag: &str, words: &[String]) -> bool
    ensures { result ≡ has_flag flag.now (map string_bytes words.now) }
{
    match words {
        [word, ..] => word.as_str() == flag,
        [] => false,
    }
}

// The words behind a flag, where it stands first.
fn behind_flag<'w>(flag: &str, words: &'w [String]) -> &'w [String]
    ensures { map string_bytes result.now ≡ behind_flag flag.now (map string_bytes words.now) }
{
    match words {
        [word, rest @ ..] if word.as_str() == flag => rest,
        _ => words,
    }
}

// The version of the tools that is said, or else the one that is running; none where the text is no version.
fn tools_in(said: Option<&str>) -> Option<ToolsVersion>
    ensures { result ≡ tools_in (option_map (λ text. text.now) said.entry) }
{
    match said {
        Some(text) => ToolsVersion::parse(text),
        None => Some(RUNNING),
    }
}

// The traits of this list, or those by default; none where the list has what is no name.
fn traits_by(alloc: Global, list: Option<&str>) -> Result<Option<TraitWords>, NoMemory>
    ensures { IfOk result (λ traits. traits ≡ traits_by (option_map (λ text. text.now) list.entry)) }
{
    match list {
        Some(list) => Ok(names_of(alloc, list)?.map(TraitWords::These)),
        None => Ok(Some(TraitWords::ByDefault)),
    }
}

// The traits that the first words ask for.
fn traits_in(alloc: Global, words: &[String]) -> Result<Option<TraitWords>, NoMemory>
    ensures { IfOk result (λ traits. traits ≡ traits_in (map string_bytes words.now)) }
{
    if has_flag("--enable-all-traits", words) {
        Ok(Some(TraitWords::All))
    } else if has_flag("--disable-default-traits", words) {
        Ok(Some(TraitWords::Nothing))
    } else {
        traits_by(alloc, value_of("--traits", words))
    }
}

// The words behind those on traits.
fn behind_traits<'w>(words: &'w [String]) -> &'w [String]
    ensures { map string_bytes result.now ≡ behind_traits (map string_bytes words.now) }
{
    if has_flag("--enable-all-traits", words) {
        behind_flag("--enable-all-traits", words)
    } else if has_flag("--disable-default-traits", words) {
        behind_flag("--disable-default-traits", words)
    } else {
        behind_value("--traits", words)
    }
}

// Whether the root is among these.
fn is_named(roots: &[String], root: &str) -> bool
    ensures { result ≡ list_any (bytes_eq root.now) (map string_bytes roots.now) }
{
    roots.iter().any(|other| other.as_str() == root)
}

// Whether each of these is named once.
fn are_distinct(roots: &[String]) -> bool
    ensures { result ≡ are_distinct (map string_bytes roots.now) }
{
    let mut rest = roots;
    while let [root, others @ ..] = rest {
        if is_named(others, root.as_str()) {
            return false;
        }
        rest = others;
    }
    true
}

// Whether each of these is a value.
fn are_values(roots: &[String]) -> bool
    ensures { result ≡ list_all is_value (map string_bytes roots.now) }
{
    roots.iter().all(|root| is_value(root.as_str()))
}

// Whether these are one to 64 folders, each once.
fn are_roots(roots: &[String]) -> bool
    ensures { result ≡ are_roots (map string_bytes roots.now) }
{
    !roots.is_empty() && roots.len() <= MAX_ROOTS && are_values(roots) && are_distinct(roots)
}

// Whether this is the name of one of a root's files.
fn is_file_of(alloc: Global, name: &str, root: &str) -> Result<bool, NoMemory>
    ensures { IfOk result (λ is. is ≡ is_file_of name.now root.now) }
{
    Ok(
        name == manifest_name(alloc, root)?.as_str()
            || name == lock_name(alloc, root)?.as_str()
            || name == proof_name(alloc, root)?.as_str(),
    )
}

// Whether the fingerprint file is no other file of the run.
fn is_apart(
    alloc: Global,
    file: Option<&str>,
    shelf: &str,
    roots: &[String],
) -> Result<bool, NoMemory>
    ensures { IfOk result (λ is. is ≡ is_apart (option_map (λ name. name.now) file.entry) shelf.now (map string_bytes roots.now)) }
{
    let Some(file) = file else {
        return Ok(true);
    };
    if !is_value(file) || file == shelf {
        return Ok(false);
    }
    for root in roots {
        if is_file_of(alloc, file, root.as_str())? {
            return Ok(false);
        }
    }
    Ok(true)
}

// The order with these parts, where they are as they have to be.
fn order_with<'w>(
    alloc: Global,
    shelf: &'w str,
    fingerprints: Option<&'w str>,
    tools: Option<ToolsVersion>,
    traits: Option<TraitWords>,
    words: &'w [String],
) -> Result<Option<Order<'w>>, NoMemory>
    ensures { IfOk result (λ order. option_map order_view order
        ≡ with_traits shelf.now (option_map (λ file. file.now) fingerprints.entry) tools traits (map string_bytes words.now)) }
{
    let (Some(tools), Some(traits)) = (tools, traits) else {
        return Ok(None);
    };
    let proofs = has_flag("--proofs", words);
    let roots = behind_flag("--proofs", words);
    if !is_value(shelf) || !are_roots(roots) || !is_apart(alloc, fingerprints, shelf, roots)? {
        return Ok(None);
    }
    Ok(Some(Order {
        shelf,
        fingerprints,
        tools,
        traits,
        proofs,
        roots,
    }))
}

// The words behind the shelf's file.
fn with_shelf<'w>(
    alloc: Global,
    shelf: &'w str,
    words: &'w [String],
) -> Result<Option<Order<'w>>, NoMemory>
    ensures { IfOk result (λ order. option_map order_view order ≡ with_shelf shelf.now (map string_bytes words.now)) }
{
    let fingerprints = value_of("--fingerprints", words);
    let words = behind_value("--fingerprints", words);
    let tools = tools_in(value_of("--tools-version", words));
    let words = behind_value("--tools-version", words);
    let traits = traits_in(alloc, words)?;
    let words = behind_traits(words);
    order_with(alloc, shelf, fingerprints, tools, traits, words)
}

impl<'w> Order<'w> {
    /// What the words ask of `resolve`, or none where they are of no form of it that is built so far.
    ///
    /// # Errors
    ///
    /// `NoMemory` alone.
    pub fn read(alloc: Global, words: &'w [String]) -> Result<Option<Order<'w>>, NoMemory>
        ensures { IfOk result (λ order. option_map order_view order ≡ order_of (map string_bytes words.now)) }
    {
        match words {
            [command, option, shelf, rest @ ..]
                if command.as_str() == "resolve" && option.as_str() == "--shelf" => {
                with_shelf(alloc, shelf.as_str(), rest)
            }
            _ => Ok(None),
        }
    }
}

// What is asked of `judge` with this version and these words.
fn judgement_with<'w>(
    shelf: &'w str,
    tools: Option<ToolsVersion>,
    words: &'w [String],
) -> Option<Judgement<'w>>
    ensures { option_map judgement_view result ≡ judgement_with shelf.now tools (map string_bytes words.now) }
{
    let tools = tools?;
    match words {
        [root] if is_value(shelf) && is_value(root.as_str()) => Some(Judgement {
            shelf,
            tools,
            root: root.as_str(),
        }),
        _ => None,
    }
}

/// What the words ask of `judge`, or none where they are of another form.
pub fn judge_of<'w>(words: &'w [String]) -> Option<Judgement<'w>>
    ensures { option_map judgement_view result ≡ judge_of (map string_bytes words.now) }
{
    match words {
        [command, option, shelf, rest @ ..]
            if command.as_str() == "judge" && option.as_str() == "--shelf" => {
            let tools = tools_in(value_of("--tools-version", rest));
            judgement_with(shelf.as_str(), tools, behind_value("--tools-version", rest))
        }
        _ => None,
    }
}

// The one file that these words name.
fn file_in<'w>(words: &'w [String]) -> Option<&'w str>
    ensures { option_map (λ file. file.now) result ≡ file_in (map string_bytes words.now) }
{
    match words {
        [file] if is_value(file.as_str()) => Some(file.as_str()),
        _ => None,
    }
}

/// The fingerprint file that the words ask to show, or none where they are of another form.
pub fn shown_of<'w>(words: &'w [String]) -> Option<&'w str>
    ensures { option_map (λ file. file.now) result ≡ shown_of (map string_bytes words.now) }
{
    match words {
        [command, rest @ ..] if command.as_str() == "fingerprints" => file_in(rest),
        _ => None,
    }
}

/// The file with the derivation that the words ask to check, or none where they are of another form.
pub fn proof_of<'w>(words: &'w [String]) -> Option<&'w str>
    ensures { option_map (λ file. file.now) result ≡ proof_of (map string_bytes words.now) }
{
    match words {
        [command, option, file]
            if command.as_str() == "check"
                && option.as_str() == "--proof"
                && is_value(file.as_str()) => { Some(file.as_str()) }
        _ => None,
    }
}
