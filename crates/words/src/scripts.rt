// Which scripts can be served beside one another.
ghost use Rattle.std.specs.Prelude.{◌≡◌, ◌↔◌, ◌≤◌, ◌++◌, ℕ, List, All, AllPairs, length, IfSome, IfNone, IsTrue};
ghost use Rattle.words.specs.Scripts.{AreScripts, IsApart, output_of};

use slicer_ids::name::Text;

/// Whether the scripts are at most 64, no two are equal, and none stands where the replies to another go.
pub fn are_scripts(scripts: &[Text]) -> bool
    ensures { IsTrue result ↔ AreScripts scripts.now }
{
    if !is_few(scripts) {
        return false;
    }
    are_apart(scripts)
}

fn is_few(scripts: &[Text]) -> bool
    ensures { IsTrue result ↔ (length scripts.now ≤ 64) }
{
    scripts.len() <= 64
}

fn are_apart(scripts: &[Text]) -> bool
    ensures { IsTrue result ↔ AllPairs IsApart scripts.now }
{
    for (place, script) in scripts.iter().enumerate() {
        if !is_apart_from(&scripts[..place], script.as_str()) {
            return false;
        }
    }
    true
}

fn is_apart_from(scripts: &[Text], script: &str) -> bool
    ensures { IsTrue result ↔ All (λ s. IsApart s script.now) scripts.now }
{
    for other in scripts {
        if !is_apart(other.as_str(), script) {
            return false;
        }
    }
    true
}

fn is_apart(script: &str, other: &str) -> bool
    ensures { IsTrue result ↔ IsApart script.now other.now }
{
    are_apart_paths(script.as_bytes(), other.as_bytes())
}

fn are_apart_paths(script: &[u8], other: &[u8]) -> bool
    ensures { IsTrue result ↔ IsApart script.now other.now }
{
    if is_same(script, other) {
        return false;
    }
    if is_output(script, other) {
        return false;
    }
    !is_output(other, script)
}

fn is_same(bytes: &[u8], others: &[u8]) -> bool
    ensures { IsTrue result ↔ (bytes.now ≡ others.now) }
{
    bytes == others
}

// Whether the replies to the script go to the path.
fn is_output(script: &[u8], path: &[u8]) -> bool
    ensures { IsTrue result ↔ (path.now ≡ output_of script.now) }
{
    match after_prefix(script, path) {
        Some(rest) => is_same(rest, b".out"),
        None => false,
    }
}

// The bytes after a prefix.
fn after_prefix<'a>(prefix: &[u8], bytes: &'a [u8]) -> Option<&'a [u8]>
    ensures found { IfSome result (λ rest. bytes.now ≡ prefix.now ++ rest.now) }
    ensures missed { IfNone result ((rest : List ℕ) → bytes.now ≡ prefix.now ++ rest → ⊥) }
{
    bytes.strip_prefix(prefix)
}
