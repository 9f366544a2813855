//! What follows from the definitions of files. Each function does nothing: its contract is the law.
ghost use Rattle.wgr_conf.specs.Laws.{RoutingIsOne, ServerFileRoutes};

/// From the server's file, wg leads each allowed prefix of the live network to its peer's key, and no
/// other prefix to any; a file leads a prefix to one key at most.
pub fn server_files_route()
    ensures routes { ServerFileRoutes }
    ensures one { RoutingIsOne }
{}
