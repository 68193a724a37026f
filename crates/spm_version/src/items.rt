ghost use Rattle.std.specs.Prelude.{◌≡◌, [], ◌∷◌, ◌++◌, IfOk, OnErr, OnOk};

use crate::NoMemory;
use std::alloc::Global;
use std::marker::Model;

/// What can be copied.
pub trait Duplicate {
    /// A copy.
    fn duplicate(&self, alloc: Global) -> Result<Self, NoMemory>
    where
        Self: Sized,
        ensures { IfOk result (λ x. x ≡ self.now) };
}

/// A list. Contracts see it as one.
#[derive(Debug, Drop)]
pub struct Items<X> {
    content: Vec<X>,
}

impl<X> Model for Items<X> {
    ghost use Rattle.std.specs.Prelude.{List};
    ghost use Rattle.std.specs.Coded.{coded_list};

    ghost Value = { List X };

    ghost coded = { coded_list X.code };

    ghost view = { λ s. s.content.items };
}

impl<X> Items<X> {
    /// The empty list. It takes no memory.
    pub fn new(alloc: Global) -> Items<X>
        ensures { result ≡ [] }
    {
        Items {
            content: Vec::new(alloc),
        }
    }

    /// The same list. It takes no memory.
    pub fn from_vec(content: Vec<X>) -> Items<X>
        ensures { result ≡ content.items }
    {
        Items { content }
    }

    /// The same list. It takes no memory.
    pub fn into_vec(self) -> Vec<X>
        ensures { result.items ≡ self }
    {
        let Items { content } = self;
        content
    }

    /// The list, lent.
    pub fn as_slice(&self) -> &[X]
        ensures { result.now ≡ self.now }
    {
        self.content.as_slice()
    }
}

impl<X: Drop> Items<X> {
    /// Puts `x` behind the others, or drops it where memory runs out.
    ///
    /// # Errors
    ///
    /// `NoMemory` alone.
    pub fn push(&mut self, x: X) -> Result<(), NoMemory>
        ensures ok { OnOk result (self.new ≡ self.old ++ x ∷ []) }
        ensures err { OnErr result (self.new ≡ self.old) }
    {
        self.content.push(x)?;
        Ok(())
    }
}

impl<X: Duplicate + Drop> Items<X> {
    /// A copy of the list and of each of its items.
    ///
    /// # Errors
    ///
    /// `NoMemory` alone.
    pub fn copy(&self, alloc: Global) -> Result<Items<X>, NoMemory>
        ensures { IfOk result (λ s. s ≡ self.now) }
    {
        let mut content = Vec::with_capacity(alloc, self.content.len())?;
        for item in &self.content {
            content.push(item.duplicate(alloc)?)?;
        }
        Ok(Items { content })
    }
}
