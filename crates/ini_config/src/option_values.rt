//! The settings.
ghost use Rattle.std.specs.Prelude.{◌≡◌, ◌||◌, IfOk, OnOk, OnErr, option_map, unwrap_or, bytes_eq, codes};
ghost use Rattle.std.specs.Str.{str_to_ascii_lowercase};
ghost use Rattle.std.specs.List.{list_any};
ghost use Rattle.ini_config.specs.OptionValues as spec;
ghost use Rattle.ini_config.specs.Tables.{row_for, row_of_served};

use crate::database_rows::{DbRow, ServedRow};
use crate::name_lists::Names;
use crate::option_keys::Setting;
use crate::row_table::Rows;
use std::alloc::{AllocError, Global};
use text_lines::Text;

/// How clients prove who they are.
#[derive(Clone, Copy, PartialEq, Eq)]
pub enum AuthType {
    /// They don't: the user file's users are let in.
    Trust,
    /// By the password as it is.
    Plain,
    /// By the MD5 answer.
    Md5,
    /// By SCRAM-SHA-256.
    ScramSha256,
}

/// Whose columns the console's tables have.
#[derive(Clone, Copy, PartialEq, Eq)]
pub enum ConsoleStyle {
    /// Its own.
    Own,
    /// PgBouncer's, of release 1.24.
    PgBouncer,
}

/// Everything that a settings file says, defaults included.
pub struct Settings {
    pub rows: Rows,
    pub listen_addr: Names,
    pub listen_port: u16,
    pub auth_type: AuthType,
    pub admin_users: Names,
    pub max_client_conn: u32,
    pub default_pool_size: u32,
    pub max_links: u32,
    pub query_wait_timeout: u32,
    pub server_lifetime: u32,
    pub server_idle_timeout: u32,
    pub max_packet_size: u32,
    pub ignore_startup_parameters: Names,
    pub track_extra_parameters: Names,
    pub log_connections: bool,
    pub log_disconnections: bool,
    pub untrack_parameters: Names,
    /// Empty: none.
    pub unix_socket_dir: Text,
    pub unix_socket_mode: u32,
    /// Empty: that of the process.
    pub unix_socket_group: Text,
    /// 0: none.
    pub peer_id: u32,
    pub tcp_keepalive: bool,
    pub tcp_keepidle: u32,
    pub tcp_keepintvl: u32,
    pub tcp_keepcnt: u32,
    pub tcp_user_timeout: u32,
    pub server_connect_timeout: u32,
    pub client_login_timeout: u32,
    pub stats_users: Names,
    pub stats_period: u32,
    pub log_stats: bool,
    pub console_style: ConsoleStyle,
    /// Empty: none.
    pub metrics_addr: Names,
    pub metrics_port: u16,
}

impl Drop for Settings {
    fn drop(self) {
        let Settings {
            rows: _,
            listen_addr: _,
            listen_port: _,
            auth_type: _,
            admin_users: _,
            max_client_conn: _,
            default_pool_size: _,
            max_links: _,
            query_wait_timeout: _,
            server_lifetime: _,
            server_idle_timeout: _,
            max_packet_size: _,
            ignore_startup_parameters: _,
            track_extra_parameters: _,
            log_connections: _,
            log_disconnections: _,
            untrack_parameters: _,
            unix_socket_dir: _,
            unix_socket_mode: _,
            unix_socket_group: _,
            peer_id: _,
            tcp_keepalive: _,
            tcp_keepidle: _,
            tcp_keepintvl: _,
            tcp_keepcnt: _,
            tcp_user_timeout: _,
            server_connect_timeout: _,
            client_login_timeout: _,
            stats_users: _,
            stats_period: _,
            log_stats: _,
            console_style: _,
            metrics_addr: _,
            metrics_port: _,
        } = self;
    }
}

impl Settings {
    /// What an empty file says. The only error is out of memory.
    pub fn defaults(alloc: Global) -> Result<Settings, AllocError>
        ensures { IfOk result (λ s. s ≡ spec.defaults) }
    {
        let track_extra_parameters = Names::one(alloc, b"IntervalStyle")?;
        let listen_addr = Names::one(alloc, b"127.0.0.1")?;
        Ok(Settings {
            rows: Rows::new(alloc),
            listen_addr,
            listen_port: 6432,
            auth_type: AuthType::Md5,
            admin_users: Names::new(alloc),
            max_client_conn: 100,
            default_pool_size: 20,
            max_links: 1000,
            query_wait_timeout: 120,
            server_lifetime: 3600,
            server_idle_timeout: 600,
            max_packet_size: 2_147_483_647,
            ignore_startup_parameters: Names::new(alloc),
            track_extra_parameters,
            log_connections: false,
            log_disconnections: false,
            untrack_parameters: Names::new(alloc),
            unix_socket_dir: Text::copy(alloc, b"")?,
            unix_socket_mode: 0o777,
            unix_socket_group: Text::copy(alloc, b"")?,
            peer_id: 0,
            tcp_keepalive: true,
            tcp_keepidle: 0,
            tcp_keepintvl: 0,
            tcp_keepcnt: 0,
            tcp_user_timeout: 0,
            server_connect_timeout: 15,
            client_login_timeout: 60,
            stats_users: Names::new(alloc),
            stats_period: 60,
            log_stats: true,
            console_style: ConsoleStyle::Own,
            metrics_addr: Names::new(alloc),
            metrics_port: 9127,
        })
    }

    /// The settings changed by a value. The only error is out of memory, which leaves them as they were.
    pub(crate) fn apply(&mut self, alloc: Global, setting: Setting<'_>) -> Result<(), AllocError>
        ensures ok { OnOk result (self.new ≡ spec.changed_by setting.entry self.old) }
        ensures err { OnErr result (self.new ≡ self.old) }
    {
        match setting {
            Setting::ListenAddr(text) => self.listen_addr = Names::read_listened(alloc, text)?,
            Setting::ListenPort(port) => self.listen_port = port,
            Setting::AuthType(auth_type) => self.auth_type = auth_type,
            Setting::AdminUsers(text) => self.admin_users = Names::read(alloc, text)?,
            Setting::MaxClientConn(n) => self.max_client_conn = n,
            Setting::DefaultPoolSize(n) => self.default_pool_size = n,
            Setting::MaxLinks(n) => self.max_links = n,
            Setting::QueryWaitTimeout(n) => self.query_wait_timeout = n,
            Setting::ServerLifetime(n) => self.server_lifetime = n,
            Setting::ServerIdleTimeout(n) => self.server_idle_timeout = n,
            Setting::MaxPacketSize(n) => self.max_packet_size = n,
            Setting::IgnoreStartupParameters(text) => {
                self.ignore_startup_parameters = Names::read(alloc, text)?
            }
            Setting::TrackExtraParameters(text) => {
                self.track_extra_parameters = Names::read(alloc, text)?
            }
            Setting::LogConnections(is_on) => self.log_connections = is_on,
            Setting::LogDisconnections(is_on) => self.log_disconnections = is_on,
            Setting::UntrackParameters(text) => self.untrack_parameters = Names::read(alloc, text)?,
            Setting::UnixSocketDir(text) => self.unix_socket_dir = Text::copy(alloc, text)?,
            Setting::UnixSocketMode(mode) => self.unix_socket_mode = mode,
            Setting::UnixSocketGroup(text) => self.unix_socket_group = Text::copy(alloc, text)?,
            Setting::PeerId(id) => self.peer_id = id,
            Setting::TcpKeepalive(is_on) => self.tcp_keepalive = is_on,
            Setting::TcpKeepidle(seconds) => self.tcp_keepidle = seconds,
            Setting::TcpKeepintvl(seconds) => self.tcp_keepintvl = seconds,
            Setting::TcpKeepcnt(count) => self.tcp_keepcnt = count,
            Setting::TcpUserTimeout(milliseconds) => self.tcp_user_timeout = milliseconds,
            Setting::ServerConnectTimeout(seconds) => self.server_connect_timeout = seconds,
            Setting::ClientLoginTimeout(seconds) => self.client_login_timeout = seconds,
            Setting::StatsUsers(text) => self.stats_users = Names::read(alloc, text)?,
            Setting::StatsPeriod(seconds) => self.stats_period = seconds,
            Setting::LogStats(is_on) => self.log_stats = is_on,
            Setting::ConsoleStyle(style) => self.console_style = style,
            Setting::MetricsAddr(text) => self.metrics_addr = Names::read_listened(alloc, text)?,
            Setting::MetricsPort(port) => self.metrics_port = port,
            Setting::Nothing => {}
        }
        Ok(())
    }

    /// The row that serves a database, by the name that clients ask for: that of its name, else that of `*`.
    pub fn row<'a>(&'a self, name: &'a [u8]) -> Option<ServedRow<'a>>
        ensures { option_map row_of_served result ≡ row_for name.entry.now self.entry.now.rows }
    {
        self.rows.serving(name)
    }

    /// How many links a pool of this row may have.
    pub fn pool_size(&self, row: &DbRow) -> u32
        ensures { result ≡ unwrap_or row.now.pool_size self.now.default_pool_size }
    {
        row.pool_size.unwrap_or(self.default_pool_size)
    }

    /// Whether the user may use the console.
    pub fn is_admin(&self, user: &[u8]) -> bool
        ensures { result ≡ spec.is_admin self.now user.now }
    {
        self.admin_users.has(user)
    }

    /// Whether the user may look at the console, and do nothing there.
    pub fn may_look(&self, user: &[u8]) -> bool
        ensures { result ≡ spec.may_look self.now user.now }
    {
        self.stats_users.has(user)
    }

    /// Whether a startup parameter of this name is dropped, where it isn't followed. The case of ASCII letters doesn't count.
    pub fn ignores(&self, name: &[u8]) -> bool
        ensures { result ≡ spec.ignores self.now name.now }
    {
        self.ignore_startup_parameters.has_folded(name)
    }

    /// Whether `track_extra_parameters` names this startup parameter. The case of ASCII letters doesn't count.
    pub fn tracks(&self, name: &[u8]) -> bool
        ensures { result ≡ spec.tracks self.now name.now }
    {
        self.track_extra_parameters.has_folded(name)
    }

    /// Whether `untrack_parameters` names this startup parameter. The case of ASCII letters doesn't count.
    pub fn untracks(&self, name: &[u8]) -> bool
        ensures { result ≡ spec.untracks self.now name.now }
    {
        self.untrack_parameters.has_folded(name)
    }

    /// The addresses and names that the pooler listens on; 0.0.0.0 means all of IPv4.
    pub fn listen_addr(&self) -> &Names
        ensures { result.now ≡ self.now.listen_addr }
    {
        &self.listen_addr
    }

    /// The port that the pooler listens on.
    pub fn listen_port(&self) -> u16
        ensures { result ≡ self.now.listen_port }
    {
        self.listen_port
    }

    /// How clients prove who they are.
    pub fn auth_type(&self) -> AuthType
        ensures { result ≡ self.now.auth_type }
    {
        self.auth_type
    }

    /// The users of the console, byte for byte.
    pub fn admin_users(&self) -> &Names
        ensures { result.now ≡ self.now.admin_users }
    {
        &self.admin_users
    }

    /// The way of pooling: the only one that is served.
    pub fn pool_mode(&self) -> &'static str
        ensures { result.now ≡ codes "session" }
    {
        "session"
    }

    /// The query that resets a server session: the only one that is served.
    pub fn server_reset_query(&self) -> &'static str
        ensures { result.now ≡ codes "DISCARD ALL" }
    {
        "DISCARD ALL"
    }

    /// How many clients may be connected.
    pub fn max_client_conn(&self) -> u32
        ensures { result ≡ self.now.max_client_conn }
    {
        self.max_client_conn
    }

    /// How many links a pool may have whose row says nothing else.
    pub fn default_pool_size(&self) -> u32
        ensures { result ≡ self.now.default_pool_size }
    {
        self.default_pool_size
    }

    /// How many links there may be in all.
    pub fn max_links(&self) -> u32
        ensures { result ≡ self.now.max_links }
    {
        self.max_links
    }

    /// For how many seconds a client waits for a link; 0 is without limit.
    pub fn query_wait_timeout(&self) -> u32
        ensures { result ≡ self.now.query_wait_timeout }
    {
        self.query_wait_timeout
    }

    /// After how many seconds a link is closed when it comes back; 0: after its first use.
    pub fn server_lifetime(&self) -> u32
        ensures { result ≡ self.now.server_lifetime }
    {
        self.server_lifetime
    }

    /// After how many seconds an idle link is closed; 0: never.
    pub fn server_idle_timeout(&self) -> u32
        ensures { result ≡ self.now.server_idle_timeout }
    {
        self.server_idle_timeout
    }

    /// The greatest length field of a message.
    pub fn max_packet_size(&self) -> u32
        ensures { result ≡ self.now.max_packet_size }
    {
        self.max_packet_size
    }

    /// The startup parameters that are dropped.
    pub fn ignore_startup_parameters(&self) -> &Names
        ensures { result.now ≡ self.now.ignore_startup_parameters }
    {
        &self.ignore_startup_parameters
    }

    /// The startup parameters that are followed beside the five that are by default.
    pub fn track_extra_parameters(&self) -> &Names
        ensures { result.now ≡ self.now.track_extra_parameters }
    {
        &self.track_extra_parameters
    }

    /// Whether the log is told of each client that is let in.
    pub fn log_connections(&self) -> bool
        ensures { result ≡ self.now.log_connections }
    {
        self.log_connections
    }

    /// Whether the log is told of each client's connection that is closed.
    pub fn log_disconnections(&self) -> bool
        ensures { result ≡ self.now.log_disconnections }
    {
        self.log_disconnections
    }

    /// Which of the five startup parameters that are followed by default aren't.
    pub fn untrack_parameters(&self) -> &Names
        ensures { result.now ≡ self.now.untrack_parameters }
    {
        &self.untrack_parameters
    }

    /// The folder of the Unix socket that the pooler listens on; empty: none.
    pub fn unix_socket_dir(&self) -> &[u8]
        ensures { result.now ≡ self.now.unix_socket_dir }
    {
        self.unix_socket_dir.as_bytes()
    }

    /// The rights of that socket: nine bits.
    pub fn unix_socket_mode(&self) -> u32
        ensures { result ≡ self.now.unix_socket_mode }
    {
        self.unix_socket_mode
    }

    /// The group of that socket, by its name or its number; empty: that of the process.
    pub fn unix_socket_group(&self) -> &[u8]
        ensures { result.now ≡ self.now.unix_socket_group }
    {
        self.unix_socket_group.as_bytes()
    }

    /// The first byte of the process number of each client's key, from 1 to 127; 0: as the seed gives it.
    pub fn peer_id(&self) -> u32
        ensures { result ≡ self.now.peer_id }
    {
        self.peer_id
    }

    /// Whether the system keeps connections over TCP alive, those of clients and those to servers.
    pub fn tcp_keepalive(&self) -> bool
        ensures { result ≡ self.now.tcp_keepalive }
    {
        self.tcp_keepalive
    }

    /// After how many idle seconds the first keepalive is sent; 0: as the system does.
    pub fn tcp_keepidle(&self) -> u32
        ensures { result ≡ self.now.tcp_keepidle }
    {
        self.tcp_keepidle
    }

    /// How many seconds lie between keepalives that aren't answered; 0: as the system does.
    pub fn tcp_keepintvl(&self) -> u32
        ensures { result ≡ self.now.tcp_keepintvl }
    {
        self.tcp_keepintvl
    }

    /// How many keepalives go unanswered before a connection is given up; 0: as the system does.
    pub fn tcp_keepcnt(&self) -> u32
        ensures { result ≡ self.now.tcp_keepcnt }
    {
        self.tcp_keepcnt
    }

    /// How many milliseconds what was sent may stay without an acknowledgement before a connection is given up; 0: as the system does.
    pub fn tcp_user_timeout(&self) -> u32
        ensures { result ≡ self.now.tcp_user_timeout }
    {
        self.tcp_user_timeout
    }

    /// How many seconds a connection to a server may take together with the start of its session; 0: for ever.
    pub fn server_connect_timeout(&self) -> u32
        ensures { result ≡ self.now.server_connect_timeout }
    {
        self.server_connect_timeout
    }

    /// How many seconds a client has from its connection until it is through its login; 0: as many as it likes.
    pub fn client_login_timeout(&self) -> u32
        ensures { result ≡ self.now.client_login_timeout }
    {
        self.client_login_timeout
    }

    /// The users that may look at the console, and do nothing there.
    pub fn stats_users(&self) -> &Names
        ensures { result.now ≡ self.now.stats_users }
    {
        &self.stats_users
    }

    /// How many seconds the averages and the log's line of figures are of.
    pub fn stats_period(&self) -> u32
        ensures { result ≡ self.now.stats_period }
    {
        self.stats_period
    }

    /// Whether the log has a line of figures for each period.
    pub fn log_stats(&self) -> bool
        ensures { result ≡ self.now.log_stats }
    {
        self.log_stats
    }

    /// Whose columns the console's tables have.
    pub fn console_style(&self) -> ConsoleStyle
        ensures { result ≡ self.now.console_style }
    {
        self.console_style
    }

    /// The addresses where the pooler's figures are had by HTTP; empty: nowhere.
    pub fn metrics_addr(&self) -> &Names
        ensures { result.now ≡ self.now.metrics_addr }
    {
        &self.metrics_addr
    }

    /// The port of those addresses.
    pub fn metrics_port(&self) -> u16
        ensures { result ≡ self.now.metrics_port }
    {
        self.metrics_port
    }
}
