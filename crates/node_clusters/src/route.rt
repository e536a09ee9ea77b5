//! The sorts of paths, and where they begin.

ghost use Rattle.std.specs.Prelude.{◌≡◌, ◌<◌, ◌↔◌, IsTrue, length};
ghost use Rattle.node_clusters.specs.Spread.{KindUses, Uses, IsSourceOf};
ghost use Rattle.switch_net.specs.Values.{value_at};

use mp_base::Trit;
use switch_net::{Channel, ChannelKind};

/// Which channels a path may use.
#[derive(Clone, Copy)]
pub(crate) enum Route {
    StrongOn,
    StrongMaybe,
    On,
    Maybe,
}

/// Where a path may begin: at a driver of a value, of another one, or at any.
#[derive(Clone, Copy)]
pub(crate) enum Source {
    For(Trit),
    Against(Trit),
    Any,
}

impl Route {
    fn may_use(self, kind: ChannelKind, gate: Trit) -> bool
        ensures { IsTrue result ↔ KindUses self kind gate }
    {
        match (self, kind) {
            (Route::StrongOn | Route::StrongMaybe, ChannelKind::Depletion) => false,
            (_, ChannelKind::Depletion) => true,
            (Route::StrongOn | Route::On, ChannelKind::Partial) => false,
            (_, ChannelKind::Partial) => true,
            (Route::StrongOn | Route::On, ChannelKind::Enhancement) => gate == Trit::One,
            (_, ChannelKind::Enhancement) => gate != Trit::Zero,
        }
    }

    pub(crate) fn uses(self, channel: &Channel, values: &[Trit]) -> bool
        requires { channel.now.gate < length values.now }
        ensures { IsTrue result ↔ Uses self (value_at values.now) channel.now }
    {
        self.may_use(channel.kind, values[channel.gate as usize])
    }
}

impl Source {
    pub(crate) fn is_at(self, driver: Option<Trit>) -> bool
        ensures { IsTrue result ↔ IsSourceOf self driver }
    {
        match (self, driver) {
            (Source::For(value), Some(driven)) => driven == value,
            (Source::Against(value), Some(driven)) => driven != value,
            (Source::Any, Some(_)) => true,
            (_, None) => false,
        }
    }
}
