ghost use Rattle.std.specs.Str.{bytes_eq};
ghost use Rattle.std.specs.Prelude.{◌≡◌, ◌||◌, ℕ, List, IfOk, OnErr, OnOk, not, false};
ghost use Rattle.spm_json.specs.Names.{has_name};

use spm_version::NoMemory;
use std::alloc::Global;
use std::collections::BTreeSet;

/// The texts that were met so far, as the names of a list's items that may not be doubled.
#[derive(Drop)]
pub struct Names {
    texts: BTreeSet<String>,
}

impl Names {
    /// No texts. It takes no memory.
    pub fn new(alloc: Global) -> Names
        ensures { (text : List ℕ) → has_name result text ≡ false }
    {
        Names {
            texts: BTreeSet::new(alloc),
        }
    }

    /// Whether the text was met.
    pub fn has(&self, text: &str) -> bool
        ensures { result ≡ has_name self.now text.now }
    {
        self.texts.contains(text)
    }

    /// Meets the text, and answers whether it is new.
    ///
    /// # Errors
    ///
    /// `NoMemory` alone, after which nothing was met.
    pub fn insert(&mut self, alloc: Global, text: &str) -> Result<bool, NoMemory>
        ensures new { IfOk result (λ is_new. is_new ≡ not (has_name self.old text.now)) }
        ensures met { OnOk result ((other : List ℕ) → has_name self.new other ≡ (bytes_eq text.now other || has_name self.old other)) }
        ensures err { OnErr result ((other : List ℕ) → has_name self.new other ≡ has_name self.old other) }
    {
        Ok(self.texts.insert(String::from_str(alloc, text)?)?)
    }
}
