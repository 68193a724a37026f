// What a load reads: key after key, up to the first that isn't given or the first list that is too long.
ghost use Rattle.std.specs.Prelude.{◌≡◌, IfOk, Option, Some, is_some};
ghost use Rattle.std.specs.List.{filter};
ghost use Rattle.std.specs.Option.{option_copied};
ghost use Rattle.pub_facts.specs.Catalogue.{contents_at, is_above};
ghost use Rattle.pub_facts.specs.Facts.{is_of, load_of, trouble};
ghost use Rattle.pub_plain.specs.Answers.{found_in};
ghost use Rattle.pub_plain.specs.Given.{list_given, manifest_given, package_given};
ghost use Rattle.pub_plain.specs.Loading.{read_list, read_manifest, read_need, read_needs, read_under, with_lookup};
ghost use Rattle.pub_plain.specs.Told.{answers_to, catalogue_of, job_of, load_trouble, load_version, read_load, said_at, stopped};
ghost use Rattle.pub_trail.specs.Turn.{Loading};
ghost use Rattle.spm_key.specs.declared.key.Key.TheVariants.{Identifiers};

use crate::told::{GivenManifest, Told};
use pub_facts::{LoadPlace, is_declared, is_of, own_subject, release_at};
use pub_term::{Cause, Subject};
use pub_trail::Wide;
use spm_api::{Said, is_looked_up};
use spm_ident::Identity;
use spm_key::Key;
use spm_manifest::{Manifest, Need, Target};
use spm_trait::TraitName;
use spm_version::{Items, NoMemory, Release, Text, ToolsVersion};
use std::alloc::Global;

/// Why a load can't be done yet, or never.
#[derive(Debug, Drop)]
pub enum Stop {
    /// The reply of this key has to be given first.
    Lacks(Key),
    /// A limit is passed.
    Passes(Wide),
}

// Whether the list of a package is given.
fn has_list(lists: &[(Identity, Items<Release>)], identity: &Identity) -> bool
    ensures { result ≡ is_some (list_given lists.now identity.now) }
{
    for (package, _) in lists {
        if package == identity {
            return true;
        }
    }
    false
}

// The package of a URL, where its look-up is given.
fn package_given<'k>(
    urls: &'k [(Text, Option<Identity>)],
    url: &Text,
) -> Option<&'k Option<Identity>>
    ensures { option_copied result ≡ package_given urls.now url.now }
{
    for (known, package) in urls {
        if known == url {
            return Some(package);
        }
    }
    None
}

// What is said of the manifest of a release, where it is given.
fn manifest_given<'m>(
    manifests: &'m [GivenManifest],
    identity: &Identity,
    release: &Release,
) -> Option<&'m Said>
    ensures { option_copied result ≡ manifest_given manifests.now identity.now release.now }
{
    for one in manifests {
        if &one.identity == identity && &one.release == release {
            return Some(&one.said);
        }
    }
    None
}

// What stops a load at the list of a package.
fn stop_at_list(alloc: Global, told: &Told, identity: &Identity) -> Result<Option<Stop>, NoMemory>
    ensures { IfOk result (λ stop. (more : Loading) → read_list (answers_to told.now) identity.now more ≡ stopped stop more) }
{
    if has_list(told.known.lists.as_slice(), identity) {
        return Ok(None);
    }
    let package = identity.copy(alloc)?;
    if told.long.as_slice().contains(identity) {
        return Ok(Some(Stop::Passes(Wide::Versions(package))));
    }
    Ok(Some(Stop::Lacks(Key::List(package))))
}

// What stops a load at the look-up of a URL, or at the list of the package that it names.
fn stop_at_url(alloc: Global, told: &Told, url: &Text) -> Result<Option<Stop>, NoMemory>
    ensures { IfOk result (λ stop. (more : Loading)
        → with_lookup (answers_to told.now) url.now (answers_to told.now (Identifiers url.now)) more ≡ stopped stop more) }
{
    match package_given(told.known.urls.as_slice(), url) {
        None => Ok(Some(Stop::Lacks(Key::Identifiers(url.copy(alloc)?)))),
        Some(None) => Ok(None),
        Some(Some(identity)) => stop_at_list(alloc, told, identity),
    }
}

// What stops a load at a need.
fn stop_at_need(alloc: Global, told: &Told, need: &Need) -> Result<Option<Stop>, NoMemory>
    ensures { IfOk result (λ stop. (more : Loading) → read_need (answers_to told.now) need.now more ≡ stopped stop more) }
{
    if !is_looked_up(&need.requirement) {
        return Ok(None);
    }
    match &need.target {
        Target::Registry(identity) => stop_at_list(alloc, told, identity),
        Target::Url(url) => stop_at_url(alloc, told, url),
        Target::Local(_) => Ok(None),
    }
}

// What stops a load at its needs.
fn stop_at_needs(
    alloc: Global,
    told: &Told,
    under: Option<&TraitName>,
    needs: &[Need],
) -> Result<Option<Stop>, NoMemory>
    ensures { IfOk result (λ stop. (more : Loading)
        → read_needs (answers_to told.now) (filter (is_of (option_copied under.entry)) needs.now) more ≡ stopped stop more) }
{
    for need in needs {
        if is_of(under, need) {
            if let Some(stop) = stop_at_need(alloc, told, need)? {
                return Ok(Some(stop));
            }
        }
    }
    Ok(None)
}

// What stops a load behind its owner's manifest; a trait that isn't declared reads nothing.
fn stop_under(
    alloc: Global,
    told: &Told,
    under: Option<&TraitName>,
    manifest: &Manifest,
) -> Result<Option<Stop>, NoMemory>
    ensures { IfOk result (λ stop. (more : Loading)
        → read_under (answers_to told.now) manifest.now (option_copied under.entry) more ≡ stopped stop more) }
{
    if let Some(name) = under {
        if !is_declared(manifest.traits().entries.as_slice(), name) {
            return Ok(None);
        }
    }
    stop_at_needs(alloc, told, under, manifest.needs())
}

// The release of a load's owner; the root has none.
fn version_of<'t>(told: &'t Told, load: &LoadPlace) -> Option<&'t Release>
    ensures { option_copied result ≡ load_version told.now (load_of load.now.node load.now.choice) }
{
    let identity = load.node.package()?;
    release_at(told.known.list_of(identity), load.choice)
}

// What is said of the manifest of a load's owner; the root has its own.
fn said_of_owner<'t>(told: &'t Told, load: &LoadPlace) -> Option<&'t Said>
    ensures { option_copied result ≡ said_at (answers_to told.now) (load_of load.now.node load.now.choice).owner
        (load_version told.now (load_of load.now.node load.now.choice)) }
{
    let identity = load.node.package()?;
    let release = version_of(told, load)?;
    manifest_given(told.manifests.as_slice(), identity, release)
}

// Whether the first version of the tools is greater.
fn is_above(first: ToolsVersion, second: ToolsVersion) -> bool
    ensures { result ≡ is_above first second }
{
    first.major > second.major
        || (first.major == second.major
            && (first.minor > second.minor
                || (first.minor == second.minor && first.patch > second.patch)))
}

/// The manifest of a load's owner, where it can be used: it was read, and doesn't need greater tools.
pub fn usable<'t>(told: &'t Told, load: &LoadPlace) -> Option<&'t Manifest>
    ensures { option_copied result ≡ contents_at (job_of told.now) (catalogue_of told.now) (load_of load.now.node load.now.choice).owner
        (load_version told.now (load_of load.now.node load.now.choice)) }
{
    if load.node.package().is_none() {
        return Some(&told.root);
    }
    match said_of_owner(told, load)? {
        Said::Manifest(manifest) if !is_above(manifest.tools(), told.tools) => Some(manifest),
        _ => None,
    }
}

// What stops a load at the manifest of its owner.
fn stop_at_manifest(alloc: Global, told: &Told, load: &LoadPlace) -> Result<Option<Stop>, NoMemory>
    ensures { IfOk result (λ stop. (more : Loading)
        → read_manifest (answers_to told.now) (load_of load.now.node load.now.choice).owner
        (load_version told.now (load_of load.now.node load.now.choice)) more ≡ stopped stop more) }
{
    let Some(identity) = load.node.package() else {
        return Ok(None);
    };
    let Some(release) = version_of(told, load) else {
        return Ok(None);
    };
    if manifest_given(told.manifests.as_slice(), identity, release).is_some() {
        return Ok(None);
    }
    let key = Key::Manifest(identity.copy(alloc)?, release.copy(alloc)?);
    Ok(Some(Stop::Lacks(key)))
}

/// What stops a load: the first key that it reads and that isn't given, or the first list that is too long.
///
/// # Errors
///
/// `NoMemory` alone.
pub fn stop_of(alloc: Global, told: &Told, load: &LoadPlace) -> Result<Option<Stop>, NoMemory>
    ensures { IfOk result (λ stop. (more : Loading) → read_load (answers_to told.now) (job_of told.now) (load_of load.now.node load.now.choice) more
        ≡ stopped stop more) }
{
    if let Some(stop) = stop_at_manifest(alloc, told, load)? {
        return Ok(Some(stop));
    }
    match usable(told, load) {
        Some(manifest) => stop_under(alloc, told, load.node.trait_name(), manifest),
        None => Ok(None),
    }
}

// Why a subject's manifest can't be used, by what is said of it.
fn cause_of(alloc: Global, subject: Subject, said: Option<&Said>) -> Result<Cause, NoMemory>
    ensures { IfOk result (λ cause. cause ≡ trouble subject (found_in (option_copied said.entry))) }
{
    let Some(said) = said else {
        return Ok(Cause::NoManifest(subject));
    };
    match said {
        Said::Manifest(manifest) => Ok(Cause::Tools(subject, manifest.tools())),
        Said::FaultyManifest(place, kind) => {
            let place = place.copy(alloc)?;
            Ok(Cause::Unreadable(subject, place, *kind))
        }
        Said::Releases(_) | Said::TooMany | Said::Package(_) | Said::NoManifest | Said::Nothing =>
            Ok(Cause::NoManifest(subject)),
    }
}

/// Why the manifest of a package's version can't be used.
///
/// # Errors
///
/// `NoMemory` alone.
pub fn trouble(alloc: Global, told: &Told, load: &LoadPlace) -> Result<Cause, NoMemory>
    ensures { IfOk result (λ cause. cause ≡ load_trouble told.now (load_of load.now.node load.now.choice)) }
{
    let subject = own_subject(alloc, &told.known, load)?;
    let cause = cause_of(alloc, subject, said_of_owner(told, load))?;
    Ok(cause)
}
