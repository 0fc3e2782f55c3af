//! Lines of a text file whose bytes need not be UTF-8: what PgBouncer's settings and user list have in common.
//!
//! Public: `trimmed` and `is_ignored`, for `ini_config`, `user_file` and `settings_check`; and `Text`, bytes of its own, which these
//! three, `pool_app`, `credentials`, `console_core`, `tcp_listen`, `pool_run` and `pgsess` have. Public too are the definitions: `Lines`,
//! and `Files`, which says what a file comes to whose first faulty line decides; `session_catalogue` cites them, and calls nothing here.
//! Free to change: how a `Text` keeps its bytes.
#![tactic(auto)]

ghost use Rattle.std.specs.Prelude.{◌≡◌, IfOk};
ghost use Rattle.text_lines.specs.Lines as spec;

use bstr::ByteSlice;
use std::alloc::{AllocError, Global};
use std::marker::Model;

/// The bytes without spaces and tabs at either end.
pub fn trimmed(text: &[u8]) -> &[u8]
    ensures { result.now ≡ spec.trimmed text.now }
{
    text.trim_with(|c| c == ' ' || c == '\t')
}

/// Whether a trimmed line says nothing: an empty one, and a comment, which begins with `;` or `#`.
pub fn is_ignored(line: &[u8]) -> bool
    ensures { result ≡ spec.is_ignored line.now }
{
    line.is_empty() || line[0] == b';' || line[0] == b'#'
}

/// Bytes of its own: a name or a text of a file.
pub struct Text {
    bytes: Vec<u8>,
}

impl Drop for Text {
    fn drop(self) {
        let Text { bytes: _ } = self;
    }
}

impl Model for Text {
    ghost use Rattle.std.specs.Prelude.{List, ℕ};

    ghost Value = { List ℕ };

    ghost view = { λ t. t.bytes.items };
}

impl Text {
    /// These bytes.
    pub fn from_vec(bytes: Vec<u8>) -> Text
        ensures { result ≡ bytes.items }
    {
        Text { bytes }
    }

    /// A copy of the bytes. The only error is out of memory.
    pub fn copy(alloc: Global, bytes: &[u8]) -> Result<Text, AllocError>
        ensures { IfOk result (λ t. t ≡ bytes.now) }
    {
        Ok(Text {
            bytes: Vec::from_slice(alloc, bytes)?,
        })
    }

    /// The bytes.
    pub fn as_bytes(&self) -> &[u8]
        ensures { result.now ≡ self.now }
    {
        self.bytes.as_slice()
    }
}
