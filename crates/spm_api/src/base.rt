ghost use Rattle.std.specs.Prelude.{◌≡◌, IfOk};
ghost use Rattle.spm_api.specs.Base.{ReadsBase, base_text, is_base, without_slashes};
ghost use Rattle.spm_api.specs.declared.base.BaseFault.TheVariants.{Memory};

use spm_outside::Authority;
use spm_version::{NoMemory, Text};
use std::alloc::{AllocError, Global};
use std::error::Error;
use std::fmt;
use url::{ParseError, Url};

// The port of HTTP, which is meant where none is said.
pub(crate) const HTTP_PORT: u16 = 80;

/// Where a registry is: its host and port, and the path before that of each key.
#[derive(Debug, Drop)]
pub struct Base {
    pub to: Authority,
    /// It has no slash at its end.
    pub prefix: Text,
}

/// Why a text is no base.
#[derive(Clone, Copy, Debug, PartialEq, Eq)]
pub enum BaseFault {
    /// It is no URL, or another one than is due.
    BadUrl,
    /// Want of memory.
    Memory,
}

impl fmt::Display for BaseFault {
    fn fmt<W: fmt::Write>(&self, f: &mut fmt::Formatter<W>) -> fmt::Result {
        f.write_str(match self {
            BaseFault::BadUrl => "bad URL",
            BaseFault::Memory => "no memory",
        })
    }
}

impl Error for BaseFault {}

impl From<AllocError> for BaseFault {
    ghost from_gives = { λ _ e. e ≡ Memory };

    fn from(_e: AllocError) -> BaseFault {
        BaseFault::Memory
    }
}

// Whether a URL is a base.
fn is_base(url: &Url) -> bool
    ensures { result ≡ is_base url.now }
{
    url.scheme() == "http"
        && url.has_host()
        && url.username().is_empty()
        && url.password().is_none()
        && url.query().is_none()
        && url.fragment().is_none()
}

// A path without the slashes at its end.
fn without_slashes(path: &str) -> &str
    ensures { result.now ≡ without_slashes path.now }
{
    let mut rest = path;
    while let Some(shorter) = rest.strip_suffix('/') {
        rest = shorter;
    }
    rest
}

impl Base {
    /// A copy of the base.
    ///
    /// # Errors
    ///
    /// `NoMemory` alone.
    pub fn copy(&self, alloc: Global) -> Result<Base, NoMemory>
        ensures { IfOk result (λ base. base ≡ self.now) }
    {
        Ok(Base {
            to: self.to.copy(alloc)?,
            prefix: self.prefix.copy(alloc)?,
        })
    }

    /// Reads the URL of a registry (by the URL Standard): its scheme is `http`, it has a host, and it has neither user information,
    /// query nor fragment. The port is 80 where it says none; the slashes at the end of its path are dropped.
    ///
    /// # Errors
    ///
    /// `BadUrl` exactly where the text isn't one, and `Memory`, also where the URL comes to 4 GB.
    pub fn parse(alloc: Global, text: &str) -> Result<Base, BaseFault>
        ensures { ReadsBase result (base_text text.now) }
    {
        let url = match Url::parse(alloc, text) {
            Ok(url) => url,
            Err(ParseError::OutOfMemory) | Err(ParseError::Overflow) => {
                return Err(BaseFault::Memory);
            }
            Err(_) => return Err(BaseFault::BadUrl),
        };
        if !is_base(&url) {
            return Err(BaseFault::BadUrl);
        }
        let Some(host) = url.host_str() else {
            return Err(BaseFault::BadUrl);
        };
        let to = Authority {
            host: Text::from_str(alloc, host)?,
            port: url.port().unwrap_or(HTTP_PORT),
        };
        let prefix = Text::from_str(alloc, without_slashes(url.path()))?;
        Ok(Base { to, prefix })
    }
}
