//! Laws of the definitions: each function here has one as its contract, and nothing calls them.
ghost use Rattle.std.specs.Prelude.{◌≡◌, ℕ, List};
ghost use Rattle.spm_api.specs.declared.base.Base.{Base};
ghost use Rattle.spm_key.specs.declared.reply.Reply.{Reply};
ghost use Rattle.spm_outside.specs.Book.{Pages};
ghost use Rattle.spm_server.specs.Shelved.{IsBookReply, IsShelved, IsTyped};
ghost use Rattle.spm_key.specs.declared.key.Key.{Key};
ghost use Rattle.spm_shelf.specs.Shelf.{IsShelf};
ghost use Rattle.spm_shelf.specs.declared.file.ShelfFile.{ShelfFile};
ghost use Rattle.spm_server.specs.Answer.{IsAnswer};
ghost use Rattle.spm_server.specs.RoundTrip.{ComesBack};
ghost use Rattle.spm_server.specs.declared.answering.AnswerParts.{AnswerParts};

/// The request for a key has an answer, which is read as status 200 and the shelf's contents where the shelf has the resource, and
/// else as 404; no answer to it is read as another reply. That is so for a base without prefix whose host is of printable ASCII
/// characters, a request that fits, a body within its limit and a version that doesn't end in `.zip`.
pub fn an_answer_comes_back()
    ensures { (shelf : ShelfFile) (base : Base) (asked : Key) → ComesBack shelf base asked }
{}

/// A request has one answer.
pub fn a_request_has_one_answer()
    ensures { (shelf : ShelfFile) (request : List ℕ) (first second : AnswerParts)
        → IsAnswer shelf request first → IsAnswer shelf request second → first ≡ second }
{}

/// What the book of a shelf says of a key, once the reply to the request for it is read, is what the shelf says of it: of a list the
/// package's usable releases in ascending order, of a manifest its text, of a release its checksum, of an archive its sum and length,
/// and of a URL the least of its identities.
pub fn a_book_says_its_shelf()
    ensures { (shelf : ShelfFile) (base : Base) (pages : Pages) (asked : Key) (reply : Reply) → IsShelf shelf → IsTyped shelf
        → IsBookReply shelf base pages asked reply → IsShelved shelf asked reply }
{}
