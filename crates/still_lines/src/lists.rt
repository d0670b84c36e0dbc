//! The lines of a nodelist.
ghost use Rattle.std.specs.Prelude.{◌≡◌, IfOk, length, option_map};
ghost use Rattle.ftn_addr.specs.Address.{address};
ghost use Rattle.nodelist_comp.specs.Views.{listed};
ghost use Rattle.nodelist_find.specs.Route.{IsWithin};
ghost use Rattle.still_lines.specs.Lists.{direct_text, down_text, host_address, lookup_text, nodes_text, route_text, via_text};

use ftn_addr::{Addr, Bytes, NoMemory, write_addr};
use nodelist_comp::Listed;
use nodelist_find::{Index, Route};
use std::alloc::Global;

// `ADDR direct HOST:PORT`
fn direct_line(alloc: Global, addr: &Addr, node: &Listed) -> Result<Bytes, NoMemory>
    ensures { IfOk result (λ line. line.list ≡ direct_text (address addr.now) (listed node.now)) }
{
    let mut line = Bytes::new(alloc);
    write_addr(alloc, addr, &mut line)?;
    line.push_slice(b" direct ")?;
    line.push_slice(node.host.as_slice())?;
    line.push_slice(b":")?;
    line.push_number(alloc, u64::from(node.port))?;
    line.push_slice(b"\n")?;
    Ok(line)
}

// The address of a net's host, in the domain of the address that was asked for.
fn host_address(alloc: Global, addr: &Addr, host: &Listed) -> Result<Addr, NoMemory>
    ensures { IfOk result (λ host_addr. address host_addr ≡ host_address (address addr.now) (listed host.now)) }
{
    let domain = addr.domain.copy(alloc)?;
    Ok(Addr {
        zone: host.zone,
        net: host.net,
        node: host.node,
        point: 0,
        domain,
    })
}

// `ADDR via ADDR`
fn via_line(alloc: Global, addr: &Addr, host: &Listed) -> Result<Bytes, NoMemory>
    ensures { IfOk result (λ line. line.list ≡ via_text (address addr.now) (listed host.now)) }
{
    let host = host_address(alloc, addr, host)?;
    let mut line = Bytes::new(alloc);
    write_addr(alloc, addr, &mut line)?;
    line.push_slice(b" via ")?;
    write_addr(alloc, &host, &mut line)?;
    line.push_slice(b"\n")?;
    Ok(line)
}

// `ADDR down`
fn down_line(alloc: Global, addr: &Addr) -> Result<Bytes, NoMemory>
    ensures { IfOk result (λ line. line.list ≡ down_text (address addr.now)) }
{
    let mut line = Bytes::new(alloc);
    write_addr(alloc, addr, &mut line)?;
    line.push_slice(b" down\n")?;
    Ok(line)
}

// The line of a node that is listed.
fn reached_line(
    alloc: Global,
    index: &Index,
    addr: &Addr,
    route: Route,
) -> Result<Option<Bytes>, NoMemory>
    requires { IsWithin route (length index.now) }
    ensures { IfOk result (λ line. option_map (λ line. line.list) line ≡ route_text index.now (address addr.now) route) }
{
    let line = match route {
        Route::Direct(i) => direct_line(alloc, addr, index.node(i)),
        Route::ViaHost(i) => via_line(alloc, addr, index.node(i)),
        Route::Down => down_line(alloc, addr),
        Route::Unknown => return Ok(None),
    };
    match line {
        Ok(line) => Ok(Some(line)),
        Err(fault) => Err(fault),
    }
}

/// How the node of an address is reached: `ADDR direct HOST:PORT` by its own host, `ADDR via ADDR` by its net's, or `ADDR down`,
/// and LF. None where it isn't listed. A point is looked up as its node, whatever the domain, and printed as it is asked for.
pub fn lookup_line(alloc: Global, index: &Index, addr: &Addr) -> Result<Option<Bytes>, NoMemory>
    ensures { IfOk result (λ line. option_map (λ line. line.list) line ≡ lookup_text index.now (address addr.now)) }
{
    reached_line(alloc, index, addr, index.route(addr))
}

/// How many nodes a list has: `nodes N` and LF.
pub fn nodes_line(alloc: Global, count: u32) -> Result<Bytes, NoMemory>
    ensures { IfOk result (λ line. line.list ≡ nodes_text count) }
{
    let mut line = Bytes::new(alloc);
    line.push_slice(b"nodes ")?;
    line.push_number(alloc, u64::from(count))?;
    line.push_slice(b"\n")?;
    Ok(line)
}
