//! Views of messages with a fixed number of parts.
ghost use Rattle.std.specs.Prelude.{◌≡◌, ℕ, ◌+◌, length, IfOk};
ghost use Rattle.frame_view.specs.Answers.{LiesAt};
ghost use Rattle.message_view.specs.Reading.{alone, authentication_of, execute_of, key_of, password_of, query_of, ready_of, status_named, status_of, tag_of, target_of, text_at};
ghost use Rattle.message_view.specs.Shown.{TargetLiesAt, shown_execute, shown_target};
ghost use Rattle.message_view.specs.Views.{Shows};

use crate::kinds::{FAILED, IDLE, IN_TRANSACTION, PORTAL, STATEMENT};
use crate::parts::{take_text, take_u32};
use crate::{Status, ViewError};

/// A client's PasswordMessage.
#[derive(Clone, Copy, Drop)]
pub struct PasswordView<'a> {
    pub password: &'a [u8],
}

/// A client's Query.
#[derive(Clone, Copy, Drop)]
pub struct QueryView<'a> {
    pub text: &'a [u8],
}

/// What a Describe or a Close is about, by its name.
#[derive(Clone, Copy, Drop)]
pub enum Target<'a> {
    Statement(&'a [u8]),
    Portal(&'a [u8]),
}

/// A client's Describe.
#[derive(Clone, Copy, Drop)]
pub struct DescribeView<'a> {
    pub target: Target<'a>,
}

/// A client's Close.
#[derive(Clone, Copy, Drop)]
pub struct CloseView<'a> {
    pub target: Target<'a>,
}

/// A client's Execute; with a limit of 0 or below all rows are asked for.
#[derive(Clone, Copy, Drop)]
pub struct ExecuteView<'a> {
    pub portal: &'a [u8],
    pub limit: i32,
}

/// A server's authentication message of any kind: its number and the rest.
#[derive(Clone, Copy, Drop)]
pub struct AuthView<'a> {
    pub kind: u32,
    pub rest: &'a [u8],
}

/// A server's BackendKeyData.
#[derive(Clone, Copy, PartialEq, Eq, Drop)]
pub struct KeyView {
    pub pid: u32,
    pub secret: u32,
}

/// A server's ParameterStatus.
#[derive(Clone, Copy, Drop)]
pub struct StatusView<'a> {
    pub name: &'a [u8],
    pub setting: &'a [u8],
}

/// A server's ReadyForQuery.
#[derive(Clone, Copy, PartialEq, Eq, Drop)]
pub struct ReadyView {
    pub status: Status,
}

/// A server's CommandComplete.
#[derive(Clone, Copy, Drop)]
pub struct TagView<'a> {
    pub tag: &'a [u8],
}

/// The one text that the bytes are.
fn text_alone(bytes: &[u8]) -> Result<&[u8], ViewError>
    ensures part { Shows (λ t. t.now) result (alone (text_at bytes.now)) }
    ensures place { IfOk result (λ t. LiesAt t bytes.entry 0) }
{
    let (text, rest) = take_text(bytes)?;
    if !rest.is_empty() {
        return Err(ViewError::LeftOver);
    }
    Ok(text)
}

impl<'a> PasswordView<'a> {
    /// Reads the body of a PasswordMessage: one text. [`ViewError::NoZero`]: it has no
    /// end. [`ViewError::LeftOver`]: bytes after it.
    #[tactic(auto, unfolding(crate::specs::Reading::password_of))]
    pub fn read(body: &'a [u8]) -> Result<PasswordView<'a>, ViewError>
        ensures parts { Shows (λ v. v.password.now) result (password_of body.now) }
        ensures place { IfOk result (λ v. LiesAt v.password body.entry 0) }
    {
        let password = text_alone(body)?;
        Ok(PasswordView { password })
    }
}

impl<'a> QueryView<'a> {
    /// Reads the body of a Query: one text. [`ViewError::NoZero`]: it has no
    /// end. [`ViewError::LeftOver`]: bytes after it.
    #[tactic(auto, unfolding(crate::specs::Reading::query_of))]
    pub fn read(body: &'a [u8]) -> Result<QueryView<'a>, ViewError>
        ensures parts { Shows (λ v. v.text.now) result (query_of body.now) }
        ensures place { IfOk result (λ v. LiesAt v.text body.entry 0) }
    {
        let text = text_alone(body)?;
        Ok(QueryView { text })
    }
}

#[tactic(auto, unfolding(crate::specs::Reading::target_of))]
fn read_target(body: &[u8]) -> Result<Target<'_>, ViewError>
    ensures parts { Shows shown_target result (target_of body.now) }
    ensures place { IfOk result (λ t. TargetLiesAt t body.entry 1) }
{
    match body {
        [STATEMENT, name @ ..] => Ok(Target::Statement(text_alone(name)?)),
        [PORTAL, name @ ..] => Ok(Target::Portal(text_alone(name)?)),
        _ => Err(ViewError::TooShort),
    }
}

impl<'a> DescribeView<'a> {
    /// Reads the body of a Describe: `S` or `P`, and a name. [`ViewError::TooShort`]:
    /// another letter or none. [`ViewError::NoZero`]: the name has no end. [`ViewError::LeftOver`]: bytes
    /// after it.
    pub fn read(body: &'a [u8]) -> Result<DescribeView<'a>, ViewError>
        ensures parts { Shows (λ v. shown_target v.target) result (target_of body.now) }
        ensures place { IfOk result (λ v. TargetLiesAt v.target body.entry 1) }
    {
        let target = read_target(body)?;
        Ok(DescribeView { target })
    }
}

impl<'a> CloseView<'a> {
    /// Reads the body of a Close: `S` or `P`, and a name. [`ViewError::TooShort`]:
    /// another letter or none. [`ViewError::NoZero`]: the name has no end. [`ViewError::LeftOver`]: bytes
    /// after it.
    pub fn read(body: &'a [u8]) -> Result<CloseView<'a>, ViewError>
        ensures parts { Shows (λ v. shown_target v.target) result (target_of body.now) }
        ensures place { IfOk result (λ v. TargetLiesAt v.target body.entry 1) }
    {
        let target = read_target(body)?;
        Ok(CloseView { target })
    }
}

impl<'a> ExecuteView<'a> {
    /// Reads the body of an Execute: the portal's name and the row limit. [`ViewError::NoZero`]: the
    /// name has no end. [`ViewError::TooShort`]: fewer than four bytes are left. [`ViewError::LeftOver`]: more.
    #[tactic(auto, using(crate::proofs::Ints::signed_back), unfolding(crate::specs::Reading::execute_of))]
    pub fn read(body: &'a [u8]) -> Result<ExecuteView<'a>, ViewError>
        ensures parts { Shows shown_execute result (execute_of body.now) }
        ensures place { IfOk result (λ v. LiesAt v.portal body.entry 0) }
    {
        let (portal, rest) = take_text(body)?;
        let (limit, rest) = take_u32(rest)?;
        if !rest.is_empty() {
            return Err(ViewError::LeftOver);
        }
        Ok(ExecuteView {
            portal,
            limit: limit.cast_signed(),
        })
    }
}

impl<'a> AuthView<'a> {
    /// Reads the body of an authentication message: its number, and the rest as it is.
    /// [`ViewError::TooShort`]: fewer than four bytes.
    #[tactic(auto, unfolding(crate::specs::Reading::authentication_of))]
    pub fn read(body: &'a [u8]) -> Result<AuthView<'a>, ViewError>
        ensures parts { Shows (λ v. (v.kind, v.rest.now)) result (authentication_of body.now) }
        ensures place { IfOk result (λ v. LiesAt v.rest body.entry 4) }
    {
        let (kind, rest) = take_u32(body)?;
        Ok(AuthView { kind, rest })
    }
}

impl KeyView {
    /// Reads the body of a BackendKeyData: two numbers. [`ViewError::TooShort`]: fewer than eight bytes.
    /// [`ViewError::LeftOver`]: more.
    #[tactic(auto, unfolding(crate::specs::Reading::key_of))]
    pub fn read(body: &[u8]) -> Result<KeyView, ViewError>
        ensures { Shows (λ v. (v.pid, v.secret)) result (key_of body.now) }
    {
        let (pid, rest) = take_u32(body)?;
        let (secret, rest) = take_u32(rest)?;
        if !rest.is_empty() {
            return Err(ViewError::LeftOver);
        }
        Ok(KeyView { pid, secret })
    }
}

impl<'a> StatusView<'a> {
    /// Reads the body of a ParameterStatus: a name and its value. [`ViewError::NoZero`]: one of
    /// them has no end. [`ViewError::LeftOver`]: bytes after them.
    #[tactic(auto, unfolding(crate::specs::Reading::status_of))]
    pub fn read(body: &'a [u8]) -> Result<StatusView<'a>, ViewError>
        ensures parts { Shows (λ v. (v.name.now, v.setting.now)) result (status_of body.now) }
        ensures name { IfOk result (λ v. LiesAt v.name body.entry 0) }
        ensures setting { IfOk result (λ v. LiesAt v.setting body.entry (1 + length v.name.now)) }
    {
        let (name, rest) = take_text(body)?;
        let (setting, rest) = take_text(rest)?;
        if !rest.is_empty() {
            return Err(ViewError::LeftOver);
        }
        Ok(StatusView { name, setting })
    }
}

impl ReadyView {
    /// Reads the body of a ReadyForQuery: `I`, `T` or `E`. [`ViewError::TooShort`]: another
    /// letter or none. [`ViewError::LeftOver`]: bytes after it.
    #[tactic(auto, unfolding(crate::specs::Reading::ready_of))]
    pub fn read(body: &[u8]) -> Result<ReadyView, ViewError>
        ensures { Shows (λ v. v.status) result (ready_of body.now) }
    {
        let (status, rest) = match body {
            [IDLE, rest @ ..] => (Status::Idle, rest),
            [IN_TRANSACTION, rest @ ..] => (Status::InTransaction, rest),
            [FAILED, rest @ ..] => (Status::Failed, rest),
            _ => return Err(ViewError::TooShort),
        };
        if !rest.is_empty() {
            return Err(ViewError::LeftOver);
        }
        Ok(ReadyView { status })
    }
}

impl<'a> TagView<'a> {
    /// Reads the body of a CommandComplete: one text. [`ViewError::NoZero`]: it has no
    /// end. [`ViewError::LeftOver`]: bytes after it.
    #[tactic(auto, unfolding(crate::specs::Reading::tag_of))]
    pub fn read(body: &'a [u8]) -> Result<TagView<'a>, ViewError>
        ensures parts { Shows (λ v. v.tag.now) result (tag_of body.now) }
        ensures place { IfOk result (λ v. LiesAt v.tag body.entry 0) }
    {
        let tag = text_alone(body)?;
        Ok(TagView { tag })
    }
}
