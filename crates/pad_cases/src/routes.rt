//! River routes.

ghost use Rattle.river_route.specs.Routes.{AreEnds};

use crate::shown::show_rects;
use river_route::route;
use std::io;

fn show(rt: &HostRuntime, name: &str, ends: &[(i64, i64)]) -> io::Result<()>
    requires { AreEnds ends.now }
{
    println!(rt; "route of {name}")?;
    match route(rt.alloc(), ends) {
        Ok(shape) => show_rects(rt, shape.as_slice()),
        Err(_) => println!(rt; "not enough memory"),
    }
}

/// Routes of no net, of two that fall, and of one that falls between two that rise.
pub(crate) fn show_routes(rt: &HostRuntime) -> io::Result<()> {
    show(rt, "no net", &[])?;
    show(rt, "0 to 0, 60 to 12", &[(0, 0), (60, 12)])?;
    show(
        rt,
        "0 to 9, 50 to 20, 60 to 100",
        &[(0, 9), (50, 20), (60, 100)],
    )
}
