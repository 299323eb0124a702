//! Laws of services that wrap other services, each as the contract of a function that does nothing.
ghost use Rattle.snap_session.specs.Wrapped.{AloneLaw, SharedLaw};

use crate::service::Service;

/// If each answer of `S` is an answer of `T`, whose state is part of its own, then a session on `S`
/// is a session on `T`, with equal requests, replies and bytes.
pub fn wrapper_laws<S: Service, T: Service>()
    ensures alone { AloneLaw S.gives T.gives }
    ensures shared { SharedLaw S.gives T.gives }
{}
