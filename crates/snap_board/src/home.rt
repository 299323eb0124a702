//! The page for people. Its style and its script are in style.rt and script.rt.

/// The page. It loads nothing from other servers, and the script fills it.
pub(crate) const HOME: &[u8] = br##"<!doctype html>
<html lang="en">
<head>
<meta charset="utf-8">
<meta name="viewport" content="width=device-width, initial-scale=1">
<meta name="color-scheme" content="light dark">
<title>snapd</title>
<link rel="icon" href="data:,">
<link rel="stylesheet" href="/board.css">
<script src="/board.js" defer></script>
</head>
<body>
<header>
<h1>snapd <span id="version"></span></h1>
<p id="where"></p>
<p id="state" data-state="waits">waiting for the server</p>
</header>
<p id="news" role="status" aria-live="polite"></p>
<noscript><p class="notice">This page needs its script. Without one there is
<a href="/scan">/scan</a>, <a href="/stats">/stats</a>, <a href="/history">/history</a>, <a href="/status">/status</a>,
<a href="/health">/health</a> and <a href="/metrics">/metrics</a>.</p></noscript>
<main>
<section aria-labelledby="now">
<h2 id="now">Now</h2>
<dl id="tiles"></dl>
</section>
<section aria-labelledby="course">
<h2 id="course">The last three minutes</h2>
<div id="plots"></div>
</section>
<section aria-labelledby="segments">
<h2 id="segments">Segments</h2>
<table role="table" aria-describedby="rule">
<thead role="rowgroup"><tr role="row">
<th role="columnheader" scope="col">Segment</th>
<th role="columnheader" scope="col" class="figure">Number</th>
<th role="columnheader" scope="col" class="figure">Age</th>
<th role="columnheader" scope="col" class="figure">Updates/s</th>
<th role="columnheader" scope="col">State</th>
<th role="columnheader" scope="col">Value</th>
</tr></thead>
<tbody role="rowgroup" id="rows"></tbody>
</table>
<p id="rule" class="hint">A segment stands still when its number hasn't moved for ten times its usual rest and for
five seconds at least, or, where this page has seen fewer than three of its rests, for a minute.
One that doesn't move and got no update since the server's start is quiet, whether the page saw it move before that
or not. Age is the time since the last update that was stored.</p>
</section>
<section aria-labelledby="times">
<h2 id="times">Latency of stores since the start</h2>
<div class="wide" tabindex="0" role="region" aria-labelledby="times">
<table role="table" class="plain">
<thead role="rowgroup"><tr role="row">
<th role="columnheader" scope="col">Segment</th>
<th role="columnheader" scope="col" class="figure">Stores</th>
<th role="columnheader" scope="col" class="figure">Mean</th>
<th role="columnheader" scope="col" class="figure">Half within</th>
<th role="columnheader" scope="col" class="figure">99 % within</th>
<th role="columnheader" scope="col" class="figure">Wait for the value</th>
<th role="columnheader" scope="col" class="figure">Wait for the gate</th>
<th role="columnheader" scope="col">File</th>
</tr></thead>
<tbody role="rowgroup" id="stores"></tbody>
</table>
</div>
</section>
<section aria-labelledby="refused">
<h2 id="refused">Refusals since the start</h2>
<p id="refusals">none</p>
</section>
</main>
<footer><p>Also here: <a href="/scan">/scan</a> <a href="/stats">/stats</a>
<a href="/history">/history</a> <a href="/status">/status</a> <a href="/health">/health</a>
<a href="/livez">/livez</a> <a href="/readyz">/readyz</a> <a href="/metrics">/metrics</a></p></footer>
</body>
</html>
"##;
