//! The pages and their paths.
ghost use Rattle.std.specs.Prelude.{◌≡◌};
ghost use Rattle.snap_board.specs.Paths.{page_of};

/// A page of the server, named by its path.
#[derive(Clone, Copy)]
pub enum Page {
    /// `/`: the page for people.
    Home,
    /// `/board.css`: the style of the page.
    Style,
    /// `/board.js`: the script of the page.
    Script,
    /// `/metrics`: the metrics, for Prometheus.
    Metrics,
    /// `/health`: whether a segment is fenced.
    Health,
    /// `/livez`: whether the server answers.
    Live,
    /// `/readyz`: whether any segment takes updates.
    Ready,
    /// `/scan`: the number and the value of each segment at one moment.
    Scan,
    /// `/status`: the number and the fence of each segment.
    Status,
    /// `/stats`: the metrics, as a JSON document.
    Stats,
    /// `/history`: the history of the last three minutes.
    History,
}

impl Page {
    /// The page at this path, or `None` if there is none.
    pub fn of(path: &str) -> Option<Page>
        ensures { result ≡ page_of path.now }
    {
        match path {
            "/" => Some(Page::Home),
            "/board.css" => Some(Page::Style),
            "/board.js" => Some(Page::Script),
            "/metrics" => Some(Page::Metrics),
            "/health" => Some(Page::Health),
            "/livez" => Some(Page::Live),
            "/readyz" => Some(Page::Ready),
            "/scan" => Some(Page::Scan),
            "/status" => Some(Page::Status),
            "/stats" => Some(Page::Stats),
            "/history" => Some(Page::History),
            _ => None,
        }
    }
}
