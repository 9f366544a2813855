//! The text that `wgr COMMAND --help` prints after the arguments and options.

pub(crate) const PLAN: &str = "\
Standard input has one public key per line, as `wg pubkey` prints it. Each key is assigned the
lowest free address, and a line is printed for it: its number, the key and ADDRESS/LENGTH,
separated by tabs. An empty line is not a key, nor is a line with a carriage return: remove
both with `tr -d '\\r' | sed '/^$/d'`.

A pool is an IPv4 prefix of length 8 to 30 or an IPv6 prefix of length 48 to 126, with all
host bits zero. Its first address is never assigned and the second is the server's; the last
address of an IPv4 pool is never assigned either. A pool has addresses for at most 4096 keys.

The plan ends at the first line that is refused; the lines before it are printed.

Messages on standard error, with the exit status, and what to do:
  wgr: bad_field pool            2  POOL is neither an address nor a prefix: correct it
  wgr: bad_pool                  2  its length or a host bit is wrong: correct it
  wgr: line N: bad_field key     2  the line is not the base64 of 32 bytes: correct it
  wgr: line N: key_held NUMBER   2  an earlier line has the same key: leave this one out
  wgr: line N: server_key        2  the key is reserved for the server: leave it out
  wgr: line N: capacity_reached  2  4096 keys have an address: plan the others separately
  wgr: line N: pool_full         2  no address is free: use a larger pool
  wgr: device                    1  input or output failed, or the output was closed: check it
  wgr: no_memory                 1  out of memory: free some, and try again
The status is 0 if all lines are printed, and 2 for a wrong command line.

Example:
  $ printf '%s\\n' AAAAAAAAAAAAAAAAAAAAAAAAAAAAAAAAAAAAAAAAAAA= | wgr plan 10.8.0.0/24
  1\tAAAAAAAAAAAAAAAAAAAAAAAAAAAAAAAAAAAAAAAAAAA=\t10.8.0.2/32";

pub(crate) const INIT: &str = "\
Creates the tables of a register without tenants in the SQLite database DB, and the file if it
is missing, and prints `done`. The log DB-wal beside it is part of the database.

Messages on standard error, with the exit status, and what to do:
  wgr: not_empty       1  DB already has the tables of a register: use another file
  wgr: not_a_register  1  DB has other tables: use another file
  wgr: store           1  DB cannot be created, read or written, is not a database, or another
                          program has it open: check the file and its folder
  wgr: no_memory       1  out of memory: free some, and try again
  wgr: device          1  the register is created, but `done` could not be printed
The status is 0 if `done` is printed, and 2 for a wrong command line.

Example:
  $ wgr init register.db
  done";

pub(crate) const MIGRATE: &str = "\
Takes the register in the SQLite database DB to the present version of its tables, in one
commit, and prints `done`. Of a register of the present version nothing changes. Tables that are
not the register's stay as they are. No other program may have DB open.

It cannot be undone: make a copy first, with `cp`, of DB and of the log DB-wal if it is there.
If DB is a symbolic link, copy the file that it leads to, and the log beside that.

Messages on standard error, with the exit status, and what to do:
  wgr: not_a_register  1  DB is missing or has no register: create one with `wgr init`
  wgr: not_empty       1  a table, index or view in DB has the name of a table that is to come,
                          `second` or `reader`: drop it, or give it another name
  wgr: not_good        1  DB has rows that break the register's rules: use the last good copy
                          of the file
  wgr: store           1  DB cannot be read or written, is not a database, or another program
                          has it open: check the file and its folder
  wgr: no_memory       1  out of memory: free some, and try again
  wgr: device          1  the register is of the present version, but `done` could not be
                          printed
The status is 0 if `done` is printed, and 2 for a wrong command line.

Example:
  $ mkdir before && cp -pL register.db* before
  $ wgr migrate register.db
  done";

pub(crate) const TENANT_ADD: &str = "\
Prints `done` once the tenant is in the register. A tenant has tokens (token-grant) and
networks (network-add), and cannot be removed. NAME is 1 to 32 of a-z, 0-9 and `-`; it may
begin with `-` after `--`.

Messages on standard error, with the exit status, and what to do:
  wgr: bad_field name  2  NAME does not have this form: correct it
  wgr: name_held       2  a tenant already has the name: take another
  wgr: register_full   2  the register has 65536 tenants, the most it can have
  wgr: not_a_register  1  DB is missing or has no register: create one with `wgr init`
                          (`wgr migrate` takes one of an earlier version to this one)
  wgr: not_good        1  DB has rows that break the register's rules: use the last good copy
                          of the file
  wgr: store           1  DB cannot be read or written, is not a database, or another program
                          has it open: check the file and its folder
  wgr: no_memory       1  out of memory: free some, and try again
  wgr: device          1  the tenant is added, but `done` could not be printed
The status is 0 if `done` is printed, and 2 for a wrong command line.

Example:
  $ wgr tenant-add register.db acme
  done";

pub(crate) const TOKEN_GRANT: &str = "\
Standard input has the token on one line, with or without a newline at the end: 1 to 128
printable ASCII characters without spaces. Anyone who has it can act for the tenant. The
register keeps only its SHA-256. A tenant may have several tokens. Prints `done` once the
token is granted.

With `--right read` the token only reads: it gets the tenant's networks, their peers and routes,
and the configuration files, and a request that changes a network is answered 403, `read_only`.
A token keeps its right: to change it, end the token and grant it again.

Messages on standard error, with the exit status, and what to do:
  wgr: bad_field tenant  2  TENANT does not have the form of a name: correct it
  wgr: bad_field right   2  R is neither `full` nor `read`: correct it
  wgr: bad_field token   2  standard input is not one line with a token: correct it
  wgr: no_such_tenant    2  no tenant has the name: add it with `wgr tenant-add`
  wgr: digest_held       2  a tenant already has the token: generate another
  wgr: register_full     2  the register has 65536 tokens, the most it can have: end one with
                            `wgr token-end`
  wgr: not_a_register    1  DB is missing or has no register: create one with `wgr init`
                            (`wgr migrate` takes one of an earlier version to this one)
  wgr: not_good          1  DB has rows that break the register's rules: use the last good
                            copy of the file
  wgr: store             1  DB cannot be read or written, is not a database, or another
                            program has it open: check the file and its folder
  wgr: no_memory         1  out of memory: free some, and try again
  wgr: device            1  standard input failed; or the token is granted, but `done` could
                            not be printed
The status is 0 if `done` is printed, and 2 for a wrong command line. A name that begins with
`-` must come after `--`.

Example:
  $ openssl rand -hex 32 >token
  $ wgr token-grant register.db acme <token
  done";

pub(crate) const TOKEN_END: &str = "\
Standard input has the token on one line, with or without a newline at the end: 1 to 128
printable ASCII characters without spaces. If the token is lost or leaked, use --digest
instead: HEX is the token's SHA-256, in 64 hexadecimal digits, and standard input is not read.
Prints `done` once no tenant has the token any more; the tenant's other tokens stay valid.

Messages on standard error, with the exit status, and what to do:
  wgr: bad_field token   2  standard input is not one line with a token: correct it
  wgr: bad_field digest  2  HEX is not 64 hexadecimal digits: correct it
  wgr: no_such_token     2  no tenant has the token: check it
  wgr: not_a_register    1  DB is missing or has no register: create one with `wgr init`
                            (`wgr migrate` takes one of an earlier version to this one)
  wgr: not_good          1  DB has rows that break the register's rules: use the last good
                            copy of the file
  wgr: store             1  DB cannot be read or written, is not a database, or another
                            program has it open: check the file and its folder
  wgr: no_memory         1  out of memory: free some, and try again
  wgr: device            1  standard input failed; or the token is ended, but `done` could
                            not be printed
The status is 0 if `done` is printed, and 2 for a wrong command line.

Example:
  $ wgr token-end register.db <token
  done";

pub(crate) const NETWORK_ADD: &str = "\
Prints `done` once the network is in the register, without peers.

TENANT and NAME are 1 to 32 of a-z, 0-9 and `-`; a tenant's networks have different names.
The pool is an IPv4 prefix of length 8 to 30 or an IPv6 prefix of length 48 to 126, with all
host bits zero, and must not overlap the pool of another network. Its first address is never
assigned and the second is the server's; the last address of an IPv4 pool is never assigned
either. The host is a name, or an address without brackets: 1 to 253 letters, digits, `.` and
`-`, or an IPv6 address. The key is as `wg pubkey` prints it.

Numbers are 1 to 19 decimal digits. A value that begins with `-` must come after `--`, or be
written as in `--host=-x`.

Messages on standard error, with the exit status, and what to do:
  wgr: bad_field FIELD   2  FIELD is the first of tenant, name, pool, host, port, key and
                            capacity that has the wrong form: correct it
  wgr: no_such_tenant    2  no tenant has the name: add it with `wgr tenant-add`
  wgr: name_held         2  the tenant already has a network of this name: take another
  wgr: bad_pool          2  the pool's length or a host bit is wrong: correct it
  wgr: pool_overlaps TENANT NAME
                         2  the pool overlaps that of this tenant's network: take another pool
  wgr: port_held         2  a network already has this host and port: take another port
  wgr: register_full     2  the register has 65536 networks, the most it can have: end one
                            with `wgr network-end`
  wgr: not_a_register    1  DB is missing or has no register: create one with `wgr init`
                            (`wgr migrate` takes one of an earlier version to this one)
  wgr: not_good          1  DB has rows that break the register's rules: use the last good
                            copy of the file
  wgr: store             1  DB cannot be read or written, is not a database, or another
                            program has it open: check the file and its folder
  wgr: no_memory         1  out of memory: free some, and try again
  wgr: device            1  the network is added, but `done` could not be printed
The status is 0 if `done` is printed, and 2 for a wrong command line.

Example:
  $ wgr network-add register.db acme office --pool 10.8.0.0/24 --host vpn.example.net \\
      --port 51820 --key \"$(wg pubkey <server.key)\" --capacity 250
  done";

pub(crate) const NETWORK_END: &str = "\
Prints `done` once the network is removed from the register, with its peers and routes.
Another network can then have its name, its pool and its endpoint.

Messages on standard error, with the exit status, and what to do:
  wgr: bad_field tenant  2  TENANT does not have the form of a name: correct it
  wgr: bad_field name    2  NAME does not have the form of a name: correct it
  wgr: no_such_tenant    2  no tenant has the name: correct it
  wgr: no_network        2  the tenant has no network of this name: correct it
  wgr: not_a_register    1  DB is missing or has no register: create one with `wgr init`
                            (`wgr migrate` takes one of an earlier version to this one)
  wgr: not_good          1  DB has rows that break the register's rules: use the last good
                            copy of the file
  wgr: store             1  DB cannot be read or written, is not a database, or another
                            program has it open: check the file and its folder
  wgr: no_memory         1  out of memory: free some, and try again
  wgr: device            1  the network is ended, but `done` could not be printed
The status is 0 if `done` is printed, and 2 for a wrong command line. A name that begins with
`-` must come after `--`.

Example:
  $ wgr network-end register.db acme office
  done";

pub(crate) const ORDERS: &str = "\
FILE or standard input has one order per line: its name and its fields by position, separated by
single spaces, with the token as the last word of `token-grant` and of `token-end`:
  tenant-add NAME
  token-grant TENANT TOKEN
  token-grant TENANT RIGHT TOKEN
  token-end TOKEN
  token-end --digest HEX
  network-add TENANT NAME POOL HOST PORT KEY CAPACITY
  network-end TENANT NAME

All lines are carried out in turn, and a line that fails does not stop the others. For each, a
line with its status and text is printed on standard output, such as `0 done` or `2 name_held`.
The texts are those of the command of the same name: see its --help. If a field has the wrong
form, the answer is `2 bad_field FIELD`; if a line is not an order, it is `2 bad_order`.

Messages on standard error, with the exit status, and what to do:
  wgr: not_a_register  1  DB is missing or has no register: create one with `wgr init`
                          (`wgr migrate` takes one of an earlier version to this one)
  wgr: not_good        1  DB has rows that break the register's rules: use the last good copy
                          of the file
  wgr: store           1  DB cannot be read or written, is not a database, or another program
                          has it open: check the file and its folder
  wgr: no_memory       1  out of memory: free some, and try again
  wgr: device          1  the orders cannot be read, or an answer could not be printed
The status is the greatest status of the lines, and 2 for a wrong command line.

Example:
  $ printf 'tenant-add lab\\ntenant-add branch\\n' >new
  $ wgr orders register.db new
  0 done
  0 done";

pub(crate) const SHOW: &str = "\
Prints what the register in DB has, of all tenants or of TENANT alone: a table of networks, with
how many peers and routes each has, and a table of tokens, with their rights if one of them only
reads. With --json it is one line of JSON. No entry is changed. Of a token only the digest is
known, its SHA-256, as `wgr token-end --digest` takes it.

No other program may have DB open. A running service shows the same: use `wgr send PATH show`.

Messages on standard error, with the exit status, and what to do:
  wgr: bad_field tenant  2  TENANT does not have the form of a name: correct it
  wgr: no_such_tenant    2  no tenant has the name: correct it
  wgr: not_a_register    1  DB is missing or has no register: create one with `wgr init`
                            (`wgr migrate` takes one of an earlier version to this one)
  wgr: not_good          1  DB has rows that break the register's rules: use the last good
                            copy of the file
  wgr: store             1  DB cannot be read or written, is not a database, or another
                            program has it open: check the file and its folder
  wgr: no_memory         1  out of memory: free some, and try again
  wgr: device            1  the text could not be printed, or only a part of it
The status is 0 if all is printed, and 2 for a wrong command line. A name that begins with `-`
must come after `--`.

Example:
  $ wgr show register.db acme
  TENANT  NETWORK  POOL         ENDPOINT               CAPACITY  PEERS  ROUTES
  acme    office   10.8.0.0/24  vpn.example.net:51820  250       12     3

  TENANT  TOKEN
  acme    9f86d081884c7d659a2feaa0c55ad015a3bf4f1b2b0b822cd15d6c15b0f00a08";

pub(crate) const BATCH: &str = "\
Each FILE is one request, as a client sends it over HTTP. All files are read before DB is
opened; then the requests are answered in turn, all at the time N, and the replies are printed
one after the other.

Messages on standard error, with the exit status, and what to do:
  wgr: bad_field now   2  N is not a whole number up to 9223372036854775807: correct it
  wgr: device          1  a file cannot be read, or the replies could not be printed
  wgr: not_a_register  1  DB is missing or has no register: create one with `wgr init`
                          (`wgr migrate` takes one of an earlier version to this one)
  wgr: not_good        1  DB has rows that break the register's rules: use the last good copy
                          of the file
  wgr: store           1  DB cannot be read or written, is not a database, or another program
                          has it open: check the file and its folder
  wgr: no_memory       1  out of memory: free some, and try again
The status is 0 if all replies are printed and none of them is `unavailable`, 2 for a wrong
command line, and 1 otherwise.

Example:
  $ printf 'GET /networks HTTP/1.1\\r\\nAuthorization: Bearer abc\\r\\n\\r\\n' > list
  $ wgr batch register.db --now 1700000000 list";

pub(crate) const SERVE: &str = "\
Prints `listening` once the address is bound, and answers as many connections as --count says,
one after the other, each with one request. HOST is an IPv4 address, or an IPv6 address in
brackets. The time of all requests is that of --now; without it, the clock gives the time of
each. All of a request has to come within 10 seconds of its connection, and the reply has to be
taken within 10 more; else the connection is ended. A slow client keeps the next ones waiting for
that long: put a proxy in front, which also does TLS.

With --orders, it also takes orders and readings from `wgr send`, over a Unix socket at PATH with
mode 0600, whose folder must be the operator's own. A socket that a stopped service left there is
replaced; any other file there is refused with `device`. Waiting orders and readings come before
requests, and do not count as connections. Each has 5 seconds to come, and its answer 5.

Messages on standard error, with the exit status, and what to do:
  wgr: connection           a connection failed or was too slow; the next one is answered
  wgr: order                an order or reading over the socket did; the service continues
  wgr: unavailable          a request was answered 503, or an order or reading failed: memory or
                               the disk; see `no_memory` and `store`
  wgr: bad_field host:port  2  HOST:PORT has the wrong form: correct it
  wgr: bad_field count      2  --count is not a whole number up to 9223372036854775807
  wgr: bad_field now        2  --now is not a whole number up to 9223372036854775807
  wgr: not_a_register       1  DB is missing or has no register: create one with `wgr init`
                               (`wgr migrate` takes one of an earlier version to this one)
  wgr: not_good             1  DB has rows that break the register's rules: use the last good
                               copy of the file
  wgr: store                1  DB cannot be read or written, is not a database, or another
                               program has it open: check the file and its folder
  wgr: no_memory            1  out of memory: free some, and try again
  wgr: device               1  the address or PATH cannot be bound, or `listening` could not
                               be printed
The status is 0 once all connections are answered, and 2 for a wrong command line.

Example:
  $ wgr serve register.db 127.0.0.1:8080 --count 1000000
  listening";

pub(crate) const SEND: &str = "\
Sends an order to the service that listens at PATH (`wgr serve` with --orders), and prints
`done` once it is carried out. The words are those of the command on a file, without DB:
  tenant-add NAME
  token-grant TENANT [--right R]
  token-end [--digest HEX]
  network-add TENANT NAME --pool P --host H --port N --key K --capacity N
  network-end TENANT NAME

See their --help. As there, the token of `token-grant` and of `token-end` is read from standard
input, and is refused as a word, and so is an option of another command. Instead of options, the
values may come behind the names, in this order: `token-grant TENANT R` and `network-add TENANT
NAME P H N K CAPACITY`. No word may be empty or contain a space. One that begins with `-` must
come after `--`.

Or asks the service for a reading, which changes nothing:
  status                    prints its figures, lines `name value` for Prometheus
  show [TENANT] [--json]    prints what `wgr show` prints of a file
  backup FILE               copies the register to FILE and FILE-wal, and prints `done`; FILE
                            begins with `/`, and its folder is one that the service can write.
                            A service that is killed meanwhile may leave FILE-wal and files whose
                            names begin with FILE.part

Messages on standard error besides that command's, with the exit status, and what to do:
  wgr: bad_order       2  the words are no order and no reading: check number and spelling, give
                          a token by standard input, an option only to its own word, and all
                          five of `network-add`
  wgr: bad_field file  2  FILE does not begin with `/`: give its whole path
  wgr: file_exists     2  FILE, or a file that SQLite would use with it (FILE-wal, FILE-shm,
                          FILE-journal), is there already, or would be one of the register's:
                          all stays as it is; take another name
  wgr: device          1  no service listens at PATH, or the connection broke: it is then unknown
                          whether an order was carried out, so check before you send it again;
                          or the copy cannot be made, and there is no FILE: check its folder
  wgr: no_memory       1  out of memory: free some, and try again
  wgr: store           1  the service cannot read or write the register: check its file
The status is 0 if `done` or all of a reading is printed, and 2 for a wrong command line.

Example:
  $ wgr send /run/wgr/orders tenant-add acme
  done";
