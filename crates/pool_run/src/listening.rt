//! Where a pool listens.

use crate::keeping::keepalive_of;
use crate::log::PoolLog;
use ini_config::Settings;
use mio::net::TcpListener;
use std::alloc::{AllocError, Global};
use std::io;
use std::net::Net;
use std::rt::Clock;
use std::sync::Wait;
use tcp_listen::acceptor::Acceptor;
use tcp_listen::listener::Listener;
use text_lines::Text;

/// The address or folder of a listener, and its port.
#[derive(Drop)]
struct Named {
    host: Text,
    port: u16,
}

/// Where the pool's figures are had.
#[derive(Drop)]
pub(crate) struct Metrics {
    pub(crate) listeners: Vec<TcpListener>,
    /// All of these are addresses of this host alone.
    pub(crate) is_local: bool,
}

/// What listeners are waited at for clients, and where the pool's figures are had.
#[derive(Drop)]
pub(crate) struct Begun {
    pub(crate) acceptor: Acceptor,
    pub(crate) metrics: Metrics,
}

/// Listeners, and why there is none at a folder; likewise for the pool's figures.
#[derive(Drop)]
pub struct Listening {
    listeners: Vec<Listener>,
    names: Vec<Named>,
    missing: Option<(Named, io::Error)>,
    metrics: Metrics,
    metric_names: Vec<Named>,
    missing_metrics: Option<(Named, io::Error)>,
}

impl Listening {
    /// None yet. It takes no memory.
    pub fn new(alloc: Global) -> Listening {
        Listening {
            listeners: Vec::new(alloc),
            names: Vec::new(alloc),
            missing: None,
            metrics: Metrics {
                listeners: Vec::new(alloc),
                is_local: true,
            },
            metric_names: Vec::new(alloc),
            missing_metrics: None,
        }
    }

    /// The pool's figures are had at this address and port too, which is one of this host alone or isn't. The only error is that an
    /// allocation failed.
    pub fn add_metrics(
        &mut self,
        alloc: Global,
        listener: TcpListener,
        is_local: bool,
        host: &[u8],
        port: u16,
    ) -> Result<(), AllocError> {
        self.metric_names.push(Named {
            host: Text::copy(alloc, host)?,
            port,
        })?;
        self.metrics.listeners.push(listener)?;
        self.metrics.is_local = self.metrics.is_local && is_local;
        Ok(())
    }

    /// They aren't had at this address and port, because of this.
    pub fn miss_metrics(
        &mut self,
        alloc: Global,
        host: &[u8],
        port: u16,
        why: io::Error,
    ) -> Result<(), AllocError> {
        let named = Named {
            host: Text::copy(alloc, host)?,
            port,
        };
        self.missing_metrics = Some((named, why));
        Ok(())
    }

    /// One more, at this address or folder, and port. Connections over IP to it are kept alive as these settings say: they have what
    /// their listener has. The only error is that an allocation failed.
    pub fn add(
        &mut self,
        alloc: Global,
        listener: Listener,
        settings: &Settings,
        host: &[u8],
        port: u16,
    ) -> Result<(), AllocError> {
        if let Some(keepalive) = keepalive_of(settings) {
            listener.keep(&keepalive);
        }
        self.names.push(Named {
            host: Text::copy(alloc, host)?,
            port,
        })?;
        self.listeners.push(listener)?;
        Ok(())
    }

    /// There is none at this folder and port, because of this.
    pub fn miss(
        &mut self,
        alloc: Global,
        folder: &[u8],
        port: u16,
        why: io::Error,
    ) -> Result<(), AllocError> {
        let named = Named {
            host: Text::copy(alloc, folder)?,
            port,
        };
        self.missing = Some((named, why));
        Ok(())
    }

    /// Writes a line for each address or folder on standard output.
    pub fn print<R: Print>(&self, rt: &R) -> io::Result<()> {
        for named in &self.names {
            if let Ok(host) = std::str::from_utf8(named.host.as_bytes()) {
                println!(rt; "listening {host} {}", named.port)?;
            }
        }
        Ok(())
    }

    /// Logs all of them, and waits at the listeners.
    pub(crate) fn begin<R: Net + Wait + Clock>(
        self,
        rt: &R,
        alloc: Global,
        log: &PoolLog<R>,
    ) -> io::Result<Begun>
    where
        R: Drop,
    {
        let Listening {
            listeners,
            names,
            missing,
            metrics,
            metric_names,
            missing_metrics,
        } = self;
        for named in &names {
            log.listening(named.host.as_bytes(), named.port);
        }
        if let Some((named, why)) = &missing {
            log.not_listening(named.host.as_bytes(), named.port, why);
        }
        for named in &metric_names {
            log.listening_for_metrics(named.host.as_bytes(), named.port);
        }
        if let Some((named, why)) = &missing_metrics {
            log.not_listening_for_metrics(named.host.as_bytes(), named.port, why);
        }
        Ok(Begun {
            acceptor: Acceptor::new(rt, alloc, listeners)?,
            metrics,
        })
    }
}
