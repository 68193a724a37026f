ghost use Rattle.std.specs.Prelude.{◌≡◌, IfOk};

use spm_key::Reply;
use spm_version::NoMemory;
use std::alloc::Global;
use std::marker::Model;
use std::sync::Arc;

/// A reply with several owners. Contracts see the reply.
#[derive(Drop)]
pub struct SharedReply {
    owned: Arc<Reply, Global>,
}

impl Model for SharedReply {
    ghost use Rattle.std.specs.Arc.{arc_value};
    ghost use Rattle.spm_key.specs.declared.reply.Reply.{Reply};

    ghost Value = { Reply };

    ghost view = { λ shared. arc_value shared.owned };
}

impl SharedReply {
    /// The reply, with its first owner.
    ///
    /// # Errors
    ///
    /// `NoMemory` alone.
    pub fn new(alloc: Global, reply: Reply) -> Result<SharedReply, NoMemory>
        ensures { IfOk result (λ shared. shared ≡ reply) }
    {
        let owned = Arc::new(alloc, reply)?;
        Ok(SharedReply { owned })
    }

    /// The same reply, with one owner more.
    ///
    /// # Errors
    ///
    /// `NoMemory` alone.
    pub fn share(&self) -> Result<SharedReply, NoMemory>
        ensures { IfOk result (λ shared. shared ≡ self.now) }
    {
        let owned = Arc::try_clone(&self.owned)?;
        Ok(SharedReply { owned })
    }

    /// The reply, lent.
    pub fn reply(&self) -> &Reply
        ensures { result.now ≡ self.now }
    {
        &self.owned
    }
}
