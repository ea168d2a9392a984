//! The host work of a scenario.

use crate::work::{AccessorTask, FromHost, HostWork};
use machine_data::{HostDef, HostPoll};

/// A host work that does what its line of a scenario says, and nothing to the host's value.
#[derive(Drop)]
pub struct ScriptedHost {
    left: HostDef,
}

impl HostWork for ScriptedHost {
    ghost course = { λ work. work.left };

    fn left(&self) -> HostDef {
        self.left
    }
}

impl<T> AccessorTask<T> for ScriptedHost {
    fn poll(&mut self, _host: &mut T) -> HostPoll {
        match &mut self.left {
            HostDef::Open | HostDef::Settled { polls: None, .. } => HostPoll::Pending,
            HostDef::Settled {
                polls: Some(0),
                value,
            } => match *value {
                Some(value) => HostPoll::Value(value),
                None => HostPoll::Failed,
            },
            HostDef::Settled {
                polls: Some(polls),
                ..
            } => {
                *polls -= 1;
                HostPoll::Pending
            }
        }
    }
}

impl FromHost for ScriptedHost {
    fn from_host(_place: u32, def: HostDef) -> Self {
        ScriptedHost { left: def }
    }
}
