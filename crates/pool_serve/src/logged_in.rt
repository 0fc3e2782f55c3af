//! A client that is through its login.

use login_core::Login;
use message_view::KeyWord;
use start_keys::StartKey;
use std::sync::Arc;

/// A client that is through its login: its start key, its key word, and the login, whose settings and users it keeps.
pub(crate) struct LoggedIn {
    pub key: Arc<StartKey>,
    pub word: KeyWord,
    pub login: Login,
}

impl Drop for LoggedIn {
    fn drop(self) {
        let LoggedIn {
            key: _,
            word: _,
            login: _,
        } = self;
    }
}
