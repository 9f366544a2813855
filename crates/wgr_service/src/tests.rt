//! Clients and the service in one thread, over a register in memory.
use super::{
    Desk, Ending, FileCopies, Network, Sockets, answer_all, carry_out_text, serve_connections,
};
use sqlite::{Connection, MemStore};
use std::alloc::AllocGlobal;
use std::io;
use std::io::{Read as _, Write as _};
use std::net::{Net, OpenListener, Shutdown, SocketAddr, TcpListener, TcpStream};
use std::process::Abort;
use wgr_io::Device;
use wgr_office::{Event, Office};
use wgr_orders::{Order, Right};
use wgr_peers::Name;
use wgr_register::{OpenFault, Register};
use wgr_request::token_digest;

const LIST: &[u8] = b"GET /networks HTTP/1.1\r\nAuthorization: Bearer abc\r\n\r\n";

const NETWORKS: &[u8] =
    b"HTTP/1.1 200 OK\r\nContent-Type: application/json\r\nContent-Length: 15\r\nConnection: close\r\n\r\n{\"networks\":[]}";

const TRUNCATED: &[u8] =
    b"HTTP/1.1 400 Bad Request\r\nContent-Type: application/json\r\nContent-Length: 21\r\nConnection: close\r\n\r\n{\"error\":\"truncated\"}";

/// An office over a register with the tenant `acme`, whose token is `abc`.
fn office(rt: &(impl Abort + AllocGlobal)) -> Office<MemStore> {
    let conn = Connection::open_in_memory(rt.alloc()).expect(rt, "memory");
    assert!(rt; conn.is_autocommit());
    let register = match Register::create(conn) {
        Ok(register) => register,
        Err(
            OpenFault {
                fault: _fault,
                connection: _conn,
            },
        ) => panic!(rt; "no register"),
    };
    match Office::new(rt.alloc(), register) {
        Ok(office) => office,
        Err(register) => {
            let _conn = register.into_connection();
            panic!(rt; "no office")
        }
    }
}

fn acme(rt: &(impl Abort + AllocGlobal)) -> Name {
    Name::read(rt.alloc(), b"acme")
        .expect(rt, "memory")
        .expect(rt, "a name")
}

fn add_acme(rt: &(impl Abort + AllocGlobal), office: &mut Office<MemStore>) {
    let digest = token_digest(b"abc").expect(rt, "a token");
    let mut orders = Vec::new(rt.alloc());
    orders
        .push(Event::Order(Order::AddTenant { name: acme(rt) }))
        .expect(rt, "memory");
    orders
        .push(Event::Order(Order::Grant {
            tenant: acme(rt),
            digest,
            right: Right::Full,
        }))
        .expect(rt, "memory");
    let _answers = office.run(rt.alloc(), &orders).expect(rt, "memory");
}

/// An address without a listener.
fn free_address<H: Net>(host: &H) -> io::Result<SocketAddr> {
    TcpListener::bind(host, "127.0.0.1:0")?.local_addr()
}

#[test]
fn clients_are_served_in_turn(rt: HostRuntime) -> io::Result<()> {
    let address = free_address(&rt)?;
    let mut network = Sockets::new(rt.alloc(), &rt);
    assert!(rt; network.listen(address.ip(), address.port()).is_ok());
    let mut first = TcpStream::connect(&rt, address)?;
    let mut second = TcpStream::connect(&rt, address)?;
    first.write_all(LIST)?;
    second.shutdown(Shutdown::Write)?;
    let mut office = office(&rt);
    add_acme(&rt, &mut office);
    let mut err = Device::new(Vec::new(rt.alloc()));
    let mut desk = Desk::new(FileCopies::new(rt.alloc(), &rt, "register.db"), 7);
    for (count, now) in [(0, Some(7)), (1, None), (1, Some(7))] {
        let ended = serve_connections(
            rt.alloc(),
            &mut office,
            &mut network,
            &mut desk,
            count,
            now,
            &mut err,
        );
        assert_eq!(rt; ended, Ending::Served);
    }
    let _conn = office.into_register().into_connection();
    assert!(rt; err.inner.is_empty());
    let mut reply = Vec::new(rt.alloc());
    first.read_to_end(&mut reply)?;
    assert_eq!(rt; reply.as_slice(), NETWORKS);
    reply.clear();
    second.read_to_end(&mut reply)?;
    assert_eq!(rt; reply.as_slice(), TRUNCATED);
    Ok(())
}

fn ask(rt: &(impl Abort + AllocGlobal), message: &[u8]) -> Event {
    let mut bytes = Vec::new(rt.alloc());
    bytes.extend_from_slice(message).expect(rt, "memory");
    Event::Ask { now: 7, bytes }
}

#[test]
fn requests_are_answered_in_turn(rt: HostRuntime) {
    let mut office = office(&rt);
    add_acme(&rt, &mut office);
    let requests = [ask(&rt, LIST), ask(&rt, b"")];
    let mut out = Device::new(Vec::new(rt.alloc()));
    let whole = answer_all(rt.alloc(), &mut office, &requests, &mut out);
    let _conn = office.into_register().into_connection();
    assert!(rt; whole == Ok(true));
    let (first, second) = out.inner.split_at(NETWORKS.len().min(out.inner.len()));
    assert_eq!(rt; first, NETWORKS);
    assert_eq!(rt; second, TRUNCATED);
}

#[test]
fn orders_of_a_text_are_carried_out_in_turn(rt: HostRuntime) {
    let mut office = office(&rt);
    let mut out = Device::new(Vec::new(rt.alloc()));
    let text = b"tenant-add acme\ntenant-add acme\n\ntenant-add bolt";
    let status = carry_out_text(rt.alloc(), &mut office, text, &mut out);
    assert!(rt; !office.is_shut());
    let _conn = office.into_register().into_connection();
    assert!(rt; status == Ok(2));
    assert_eq!(rt;
        out.inner.as_slice(),
        b"0 done\n2 name_held\n2 bad_order\n2 bad_order\n".as_slice()
    );
}
