//! Settings, users, a catalogue, and the lease book with its links.
ghost use Rattle.std.specs.Prelude.{◌≡◌, ◌<◌, ◌≤◌, [], false, IfErr, IfOk, IfSome};
ghost use Rattle.std.specs.Arc.{arc_value};
ghost use Rattle.frame_view.specs.declared.frames.TheConstants.{MAX_FRAME};
ghost use Rattle.ini_config.specs.Bounds.{AreWithinBounds};
ghost use Rattle.lease_book.specs.Links.{handed};
ghost use Rattle.link_start.specs.Starts.{IsLinkKey};
ghost use Rattle.login_core.specs.Dialogue.{AtFirst};
ghost use Rattle.login_core.specs.Logins.{AwaitsPacket, login_view};
ghost use Rattle.memory_pool.specs.MemoryPools.{IsAtHome, IsBroughtHome, IsNewServer, IsServerOf, IsTaken, IsUnstarted, IsStartRefusal, memory_pool_of};

use crate::answers::{Answer, Taken};
use book_model::events::{Beyond, Event};
use book_model::settings::limits_of;
use credentials::Credential;
use ini_config::Settings;
use lease_book::book::Book;
use lease_book::events::BookEvent::{GiveBack, Plain};
use lease_book::events::{BookEvent, BookReply};
use link_run::links::{CleanLink, UsedLink};
use link_run::reset::reset_link;
use link_start::close::close_link;
use link_start::start::{StartLinkError, StartRefusal, start_link};
use login_core::Login;
use memory_ends::memory_server::{MemoryServer, ServerAuth};
use memory_start_laws::memory_servers_can_start;
use message_view::{KeyWord, Refusal};
use server_end::ServerEnd;
use server_end::gate::OpenGate;
use session_catalogue::Catalogue;
use start_keys::StartKey;
use std::alloc::{AllocError, Global};
use std::marker::Model;
use std::sync::Arc;
use user_file::{Secret, Users};

/// The words of a server's own BackendKeyData, which no client sees.
const SERVER_WORD: KeyWord = KeyWord {
    pid: 7,
    secret: 8,
    salt: [0; 4],
};

/// The turns that the start or the reset of a link may take.
const TURNS: u32 = 65_536;

/// The pass of all events.
const PASS: u64 = 0;

/// What clients are served over. Each link leads to a server in memory of its own, which asks for no password and which no cancel
/// reaches.
///
/// Contracts see the settings, the users and the catalogue. Each idle link's server is of that catalogue.
pub struct MemoryPool {
    alloc: Global,
    settings: Arc<Settings>,
    users: Arc<Users>,
    catalogue: Arc<Catalogue>,
    cut: usize,
    dies_after: Option<u64>,
    book: Book<MemoryServer>,
}

impl Drop for MemoryPool {
    fn drop(self) {
        let MemoryPool {
            alloc: _,
            settings: _,
            users: _,
            catalogue: _,
            cut: _,
            dies_after: _,
            book: _,
        } = self;
    }
}

impl Model for MemoryPool {
    ghost use Rattle.std.specs.Arc.{arc_value};
    ghost use Rattle.memory_pool.specs.MemoryPools.{MemoryPoolOf, IsMemoryPool, memory_pool_of};

    ghost Value = { MemoryPoolOf };

    ghost view = { λ h. memory_pool_of (arc_value h.settings) (arc_value h.users) (arc_value h.catalogue) };

    ghost invariant = { λ h. IsMemoryPool (memory_pool_of (arc_value h.settings) (arc_value h.users) (arc_value h.catalogue)) h.cut h.book.idle };
}

/// The end of a link that wasn't started, for its client.
fn start_refusal(fault: StartLinkError<MemoryServer>) -> Result<Taken, AllocError>
    ensures { IfOk result (IsStartRefusal fault.cause) }
{
    let StartLinkError { end, cause } = fault;
    if end.faults() > 0 {
        return Err(AllocError);
    }
    match cause.into_refusal() {
        StartRefusal::Error(error) => Ok(Taken::Failed(error)),
        StartRefusal::Refusal(Refusal::OutOfMemory) => Err(AllocError),
        StartRefusal::Refusal(refusal) => Ok(Taken::Refused(refusal)),
    }
}

impl MemoryPool {
    /// A pool without links. A call of an end moves at most `cut` bytes. The only error is that an allocation failed.
    pub fn new(
        alloc: Global,
        settings: Arc<Settings>,
        users: Arc<Users>,
        catalogue: Arc<Catalogue>,
        cut: usize,
    ) -> Result<MemoryPool, AllocError>
        requires cut { 0 < cut }
        requires bounds { AreWithinBounds (arc_value settings) }
        ensures { IfOk result (λ h. h ≡ memory_pool_of (arc_value settings) (arc_value users) (arc_value catalogue)) }
    {
        let limits = Arc::new(alloc, limits_of(alloc, &settings)?)?;
        let book = Book::new(alloc, limits)?;
        Ok(MemoryPool {
            alloc,
            settings,
            users,
            catalogue,
            cut,
            dies_after: None,
            book,
        })
    }

    /// The most bytes that a call of an end moves.
    pub fn cut(&self) -> usize
        ensures { 0 < result }
    {
        self.cut
    }

    /// The greatest length of a frame.
    pub fn limit(&self) -> u32
        ensures low { 4 ≤ result }
        ensures high { result ≤ MAX_FRAME }
    {
        self.settings.max_packet_size()
    }

    /// The settings are within their bounds.
    pub fn is_bounded(&self)
        ensures { AreWithinBounds self.now.settings }
    {
        let _ = &self.cut;
    }

    /// A login of a client with this key word.
    pub fn login(&self, word: KeyWord) -> Result<Login, AllocError>
        ensures { IfOk result (λ l. l ≡ login_view self.now.settings self.now.users word (AwaitsPacket (AtFirst false false)) []) }
    {
        let settings = Arc::try_clone(&self.settings)?;
        let users = Arc::try_clone(&self.users)?;
        Login::new(self.alloc, settings, users, word)
    }

    /// What the book answers to an event.
    #[tactic(auto, using(crate::proofs::Homes::stays_home, crate::proofs::Homes::handed_home))]
    fn tell(&mut self, event: BookEvent<MemoryServer>) -> BookReply<MemoryServer>
        requires home { IsBroughtHome self.old.catalogue event }
        ensures same { self.new ≡ self.old }
        ensures home { IfSome (handed result) (IsAtHome self.old.catalogue) }
    {
        self.book.apply(PASS, event)
    }

    /// A client of a database comes: it has a number, or is refused.
    pub fn arrive(&mut self) -> Answer
        ensures { self.new ≡ self.old }
    {
        let beyond = Beyond::Nothing;
        match self.tell(Plain(Event::Arrive { beyond })) {
            BookReply::Client(number) => Answer::Number(number),
            BookReply::Refuse(refusal, _) => Answer::Refused(refusal),
            _ => Answer::Strange,
        }
    }

    /// The client of this number asks for a link of this key: it waits behind a number of others, or is refused. The only error is
    /// an allocation that failed.
    pub fn ask(&mut self, client: u64, key: &Arc<StartKey>) -> Result<Answer, AllocError>
        ensures { self.new ≡ self.old }
    {
        let key = Arc::try_clone(key)?;
        match self.tell(Plain(Event::Ask { client, key })) {
            BookReply::Queued(before) => Ok(Answer::Number(before)),
            BookReply::Refuse(refusal, _) => Ok(Answer::Refused(refusal)),
            _ => Ok(Answer::Strange),
        }
    }

    /// The client of this number takes its link, if it may have one now. The only error is that an allocation failed.
    pub fn take(&mut self, client: u64, key: &Arc<StartKey>) -> Result<Taken, AllocError>
        requires { IsLinkKey (arc_value key.now) }
        ensures same { self.new ≡ self.old }
        ensures taken { IfOk result (IsTaken self.old.catalogue (arc_value key.now)) }
    {
        match self.tell(Plain(Event::Take { client })) {
            BookReply::Lend(link) => Ok(self.lent(link, key)),
            BookReply::Start {
                number,
                started_at,
                evicted,
            } => {
                if let Some(link) = evicted {
                    close_link(link);
                }
                self.start(key, number, started_at)
            }
            BookReply::Queued(_) => Ok(Taken::Waits),
            BookReply::Refuse(refusal, _) => Ok(Taken::Refused(refusal)),
            _ => Ok(Taken::Strange),
        }
    }

    /// An idle link, for a client of this key. One of another key is closed.
    #[tactic(auto, using(crate::proofs::Homes::of_same_key))]
    fn lent(&mut self, link: CleanLink<MemoryServer>, key: &Arc<StartKey>) -> Taken
        requires { IsAtHome self.old.catalogue link }
        ensures same { self.new ≡ self.old }
        ensures taken { IsTaken self.old.catalogue (arc_value key.now) result }
    {
        if **link.key() == **key {
            return Taken::Link(link);
        }
        let number = link.number();
        close_link(link);
        self.lose(number);
        Taken::Strange
    }

    /// A new server, which waits for a StartupMessage, asks for no password, and is reached by no cancel.
    fn server(&self) -> Result<MemoryServer, AllocError>
        ensures { IfOk result (λ s. IsNewServer self.now.catalogue s.standing) }
    {
        self.catalogue.is_lawful();
        memory_servers_can_start();
        let catalogue = Arc::try_clone(&self.catalogue)?;
        MemoryServer::spared(
            self.alloc,
            catalogue,
            ServerAuth::Trust,
            SERVER_WORD,
            self.cut,
            self.dies_after,
        )
    }

    /// A link of this key over a new server, or why there is none.
    #[tactic(auto, using(crate::proofs::Starting::started_home, crate::proofs::Starting::unstarted))]
    fn open(
        &self,
        server: MemoryServer,
        key: Arc<StartKey>,
        number: u64,
        started_at: u64,
    ) -> Result<CleanLink<MemoryServer>, StartLinkError<MemoryServer>>
        requires server { IsNewServer self.now.catalogue server.standing }
        requires key { IsLinkKey (arc_value key) }
        ensures home { IfOk result (IsAtHome self.now.catalogue) }
        ensures key { IfOk result (λ l. l.key ≡ arc_value key) }
        ensures cause { IfErr result (λ f. IsUnstarted self.now.catalogue (arc_value key) f.cause) }
    {
        // the server asks for nothing
        let unasked = Secret::Md5([0; 32]);
        let credential = Credential::new(self.alloc, &unasked, None, &SERVER_WORD, number);
        start_link(
            self.alloc,
            server,
            key,
            &credential,
            number,
            started_at,
            &mut OpenGate::new(),
            TURNS,
        )
    }

    /// A new link of this key.
    #[tactic(auto, using(crate::proofs::Starting::refusal_is_told))]
    fn start(
        &mut self,
        key: &Arc<StartKey>,
        number: u64,
        started_at: u64,
    ) -> Result<Taken, AllocError>
        requires { IsLinkKey (arc_value key.now) }
        ensures same { self.new ≡ self.old }
        ensures taken { IfOk result (IsTaken self.old.catalogue (arc_value key.now)) }
    {
        let server = self.server()?;
        let key = Arc::try_clone(key)?;
        match self.open(server, key, number, started_at) {
            Ok(link) => Ok(Taken::Link(link)),
            Err(fault) => {
                self.fail_start(number);
                start_refusal(fault)
            }
        }
    }

    /// A link couldn't be started.
    fn fail_start(&mut self, number: u64)
        ensures { self.new ≡ self.old }
    {
        self.tell(Plain(Event::StartFailed { link: number }));
    }

    /// A link comes back that nobody used.
    pub fn give_back(&mut self, link: CleanLink<MemoryServer>)
        requires { IsAtHome self.old.catalogue link }
        ensures { self.new ≡ self.old }
    {
        match self.tell(GiveBack(link)) {
            BookReply::Close(link)
            | BookReply::Refuse(_, Some(link))
            | BookReply::Stranger(Some(link)) => {
                close_link(link);
            }
            _ => {}
        }
    }

    /// A link comes back that was used: it is reset first, and lost where that fails.
    pub fn reset(&mut self, link: UsedLink<MemoryServer>)
        requires { IsServerOf self.old.catalogue link.stands }
        ensures { self.new ≡ self.old }
    {
        let lent = link.lend();
        let number = lent.number;
        match reset_link(self.alloc, lent.used(), &mut OpenGate::new(), TURNS) {
            Ok(link) => self.give_back(link),
            Err(_) => self.lose(number),
        }
    }

    /// A lent link is closed.
    pub fn lose(&mut self, number: u64)
        ensures { self.new ≡ self.old }
    {
        self.tell(Plain(Event::Lost { link: number }));
    }

    /// The client of this number goes.
    pub fn leave(&mut self, client: u64)
        ensures { self.new ≡ self.old }
    {
        self.tell(Plain(Event::Leave { client }));
    }

    /// Each server that is started from here on dies once so many bytes were read from it.
    pub fn let_servers_die(&mut self, after: u64)
        ensures { self.new ≡ self.old }
    {
        self.dies_after = Some(after);
    }

    /// The clock has reached this second: each link that is due is closed.
    pub fn tick(&mut self, now: u64)
        ensures { self.new ≡ self.old }
    {
        for _ in 0..u64::MAX {
            match self.tell(Plain(Event::Tick { now })) {
                BookReply::Close(link) => {
                    close_link(link);
                }
                _ => return,
            }
        }
    }
}
