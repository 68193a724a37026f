use crate::support::{assert_told, key};
use spm_api::{guess, guess_root, reply_of};
use spm_key::Key;
use spm_manifest::Manifest;
use spm_version::Items;
use std::alloc::Global;

// The paths of the keys, with a space behind each.
fn paths(alloc: Global, keys: &Items<Key>) -> Option<String> {
    let mut text = String::new(alloc);
    for key in keys.as_slice() {
        let path = key.text(alloc).ok()?;
        write!(text, "{path} ").ok()?;
    }
    Some(text)
}

const MANIFEST: &str =
    r#"{"name":"app","toolsVersion":{"_version":"5.9.0"},"dependencies":[{"registry":[{"identity":"mona.LinkedList","requirement":{"range":[{"lowerBound":"1.0.0","upperBound":"2.0.0"}]}}]},{"fileSystem":[{"identity":"near","path":"/near"}]},{"registry":[{"identity":"Mona.Hash","requirement":{"exact":["1.0.0"]}}]},{"sourceControl":[{"identity":"main","location":{"remote":["https://example.com/main"]},"requirement":{"branch":["main"]}}]},{"sourceControl":[{"identity":"list","location":{"remote":[{"urlString":"https://example.com/zed/List"}]},"requirement":{"range":[{"lowerBound":"1.0.0","upperBound":"2.0.0"}]}}]}]}"#;

const NEEDS: &str =
    "/mona/linkedlist /mona/hash /identifiers?url=https%3A%2F%2Fexample.com%2Fzed%2FList ";

const RELEASES: &str =
    r#"{"releases":{"1.0.0":{},"1.1.0":{},"2.0.0-beta.1":{},"3.0.0":{"problem":{}}}}"#;

// What a root with this manifest makes likely.
fn guessed_root(alloc: Global, manifest: &str) -> Option<String> {
    let manifest = Manifest::read(alloc, manifest.as_bytes()).ok()?;
    paths(alloc, &guess_root(alloc, &manifest).ok()?)
}

#[test]
fn a_root_makes_its_dependencies_likely(rt: HostRuntime) {
    assert_told(&rt, guessed_root(rt.alloc(), MANIFEST), NEEDS, "a root");
}

// What a response with this status and body to the request for the key makes likely.
fn guessed(alloc: Global, asked: &str, status: &str, body: &str) -> Option<String> {
    let key = key(alloc, asked)?;
    let response = format!(in alloc; "HTTP/1.1 {status}\r\n\r\n{body}").ok()?;
    let reply = reply_of(alloc, &key, response.as_bytes()).ok()?;
    paths(alloc, &guess(alloc, &key, &reply).ok()?)
}

#[test]
fn replies_make_keys_likely(rt: HostRuntime) {
    let list = "list mona.LinkedList";
    let manifest = "manifest mona.LinkedList 1.1.0";
    for (asked, status, body, wanted) in [
        (
            list,
            "200 OK",
            RELEASES,
            "/mona/linkedlist/1.1.0/Package.json ",
        ),
        (
            list,
            "200 OK",
            r#"{"releases":{"1.10.0":{},"1.9.0":{}}}"#,
            "/mona/linkedlist/1.10.0/Package.json ",
        ),
        (
            list,
            "200 OK",
            r#"{"releases":{"2.0.0-beta.1":{},"2.0.0-beta.2":{}}}"#,
            "",
        ),
        (list, "200 OK", r#"{"releases":{}}"#, ""),
        (list, "200 OK", "[", ""),
        (list, "404 Not Found", RELEASES, ""),
        ("archive mona.LinkedList 1.1.0", "200 OK", RELEASES, ""),
        (manifest, "200 OK", MANIFEST, NEEDS),
        (manifest, "200 OK", RELEASES, ""),
        (manifest, "404 Not Found", MANIFEST, ""),
    ] {
        assert_told(&rt, guessed(rt.alloc(), asked, status, body), wanted, body);
    }
}
