//! Binding the addresses at which a server listens.
ghost use Rattle.std.specs.Prelude.{ℕ, List, IfOk, IfErr, map};
ghost use Rattle.snap_serve.specs.declared.bind.ListenFault.{ListenFault};

use snap_order::socket_path;
use snap_server::{BindFault, Listen, Listeners, LocalAddress, Tcp, UnixSocket};
use std::alloc::Global;
use std::fs::File;
use std::io::{self, ErrorKind};
use std::net::{Net, ToSocketAddrs};
use std::rt::{Clock, Files};

/// The first address that couldn't be bound, and why.
#[derive(Drop)]
pub struct ListenFault {
    /// The index of the address in the list.
    pub place: usize,
    /// Why it couldn't be bound.
    pub why: BindFault,
}

/// Binds addresses.
pub trait Bind {
    /// A listener at all bound addresses, which it names.
    type Listener: Listen + LocalAddress;

    // The listeners that may result from binding some texts.
    ghost binds: { Self → List (List ℕ) → Self.Listener → Type 0 } = { λ _ _ _. Unit {0} };

    // The errors that may result from binding some texts.
    ghost refuses: { Self → List (List ℕ) → ListenFault → Type 0 } = { λ _ _ _. Unit {0} };

    /// Binds these addresses, as texts for the system: all, or none.
    fn bind(&self, alloc: Global, addresses: &Vec<&str>) -> Result<Self::Listener, ListenFault>
        ensures bound { IfOk result (λ listener. binds self.now (map (λ a. a.now) addresses.now.items) listener) }
        ensures refused { IfErr result (λ unbound. refuses self.now (map (λ a. a.now) addresses.now.items) unbound) };
}

/// Binds TCP addresses, and paths of Unix sockets.
#[derive(Drop)]
pub struct Network<'a, X: Net + Files<File = File> + Clock> {
    net: &'a X,
    socket_mode: u32,
}

impl<'a, X: Net + Files<File = File> + Clock> Network<'a, X> {
    /// Binds by the handle `net`. The file of a Unix socket gets the mode `socket_mode`.
    pub fn new(net: &'a X, socket_mode: u32) -> Network<'a, X> {
        Network { net, socket_mode }
    }

    /// Binds one address, and adds its listener.
    fn add(
        &self,
        alloc: Global,
        listeners: &mut Listeners<'a, X>,
        address: &str,
    ) -> Result<(), BindFault> {
        match socket_path(address) {
            Some(path) => {
                let socket = UnixSocket::bind(self.net, alloc, path, self.socket_mode)?;
                listeners.add_unix(socket)
            }
            None => listeners.add_tcp(self.bind_tcp(address)?),
        }
    }

    /// Resolves a host name, and tries its addresses in order. The error is that of the last address.
    fn bind_tcp(&self, address: &str) -> io::Result<Tcp> {
        let mut why = io::Error::from(ErrorKind::InvalidInput);
        for candidate in address.to_socket_addrs(self.net)? {
            match Tcp::bind(self.net, candidate) {
                Ok(tcp) => return Ok(tcp),
                Err(error) => why = error,
            }
        }
        Err(why)
    }
}

impl<'a, X: Net + Files<File = File> + Clock> Bind for Network<'a, X> {
    type Listener = Listeners<'a, X>;

    /// A text that begins with `unix:` is the path of a socket; any other is a host and a port.
    fn bind(&self, alloc: Global, addresses: &Vec<&str>) -> Result<Listeners<'a, X>, ListenFault> {
        let mut listeners = match Listeners::new(self.net, alloc) {
            Ok(listeners) => listeners,
            Err(why) => return Err(ListenFault { place: 0, why }),
        };
        for (place, address) in addresses.iter().enumerate() {
            if let Err(why) = self.add(alloc, &mut listeners, *address) {
                return Err(ListenFault { place, why });
            }
        }
        Ok(listeners)
    }
}
