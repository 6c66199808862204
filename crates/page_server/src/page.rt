//! The page itself: the file page/index.html, written by `tools/page_files`.

/// The page itself.
pub const PAGE: &str = r##"<!doctype html>
<html lang="en">
<head>
<meta charset="utf-8">
<meta name="viewport" content="width=device-width, initial-scale=1">
<meta name="color-scheme" content="light dark">
<title>rgwd</title>
<link rel="stylesheet" href="page.css">
<link rel="icon" href="data:,">
</head>
<body>
<header>
  <h1><span id="domain">rgwd</span> <span id="names"></span></h1>
  <p id="standing" role="status" title="Whether this page hears from the gateway">not connected</p>
  <p id="agent" title="Whether the gateway hears from its call agent"></p>
  <p id="numbers"></p>
  <p class="clocks">
    <span id="clock" title="The clock of the gateway"></span>
    <span id="wall" title="The time of day, UTC, by this browser's clock"></span>
  </p>
  <div class="tools">
    <label>Lines <input type="search" id="wanted-lines" placeholder="all, or 3, 7-12" autocomplete="off" spellcheck="false"></label>
    <label>Call <select id="shown-call"><option value="">all calls</option></select></label>
    <label><input type="checkbox" id="following" checked> Follow</label>
    <button type="button" id="save" title="Saves what the ladder shows as a trace">Save as a trace</button>
    <label class="file">Open a trace .. <input type="file" id="file"></label>
    <label class="file" title="What voice/voice heard: its --report">Open a report .. <input type="file" id="report"></label>
    <button type="button" id="live" hidden>Back to the gateway</button>
  </div>
</header>
<main>
  <section id="telephones" aria-labelledby="telephones-title">
    <div class="title">
      <h2 id="telephones-title">Telephones</h2>
      <label><input type="checkbox" id="busy-only" autocomplete="off"> Only lines that do something</label>
      <label title="At the chosen telephone, while it is lifted: tones of the United States, ITU-T E.180">
        <input type="checkbox" id="tones" autocomplete="off"> Tones</label>
      <p id="phones-told" class="hint" role="status"></p>
    </div>
    <p class="hint">Arrows choose a telephone. On it: <kbd>0</kbd>-<kbd>9</kbd> <kbd>*</kbd> <kbd>#</kbd>
      <kbd>a</kbd>-<kbd>d</kbd> are its keys, <kbd>h</kbd> is its hook, <kbd>f</kbd> a flash, <kbd>Enter</kbd> opens and closes its keypad.</p>
    <p id="refused" role="alert"></p>
    <div id="phones" role="group" aria-label="Telephones"></div>
  </section>
  <section id="conversation" aria-labelledby="conversation-title">
    <h2 id="conversation-title">Conversation</h2>
    <div id="heard" hidden></div>
    <div id="lanes" aria-hidden="true"></div>
    <ol id="ladder" tabindex="-1" aria-label="What happened, oldest first"></ol>
    <div id="message" hidden>
      <div class="message-head">
        <p id="message-title"></p>
        <button type="button" id="message-call" hidden>Show its call</button>
        <button type="button" id="message-close" aria-label="Close the message">Close</button>
      </div>
      <pre id="message-text" tabindex="0"></pre>
    </div>
  </section>
</main>
<noscript><p>This page needs JavaScript.</p></noscript>
<script src="page.js"></script>
</body>
</html>
"##;
