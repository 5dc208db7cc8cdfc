// The scripts of the page.

/// A script that runs before the page is laid out: from then on the style shows one step at a time.
pub(crate) const BEGIN_SCRIPT: &[u8] = b"document.documentElement.className = 'js';";

/// A script that runs after the page. A click on a cell or a head, and a link to a head, show the step. For a cell, they also
/// show the whole states of its process before and after; if the step has not changed it, those of the last step before that
/// has. The first step that fails or that a finding is about is shown at first. Arrows go from cell to cell.
pub(crate) const SCRIPT: &[u8] = b"\
(function () {
  var find = function (id) { return document.getElementById(id); };
  var table = document.querySelector('.box table');
  var heads = Array.from(table.tHead.rows[1].cells).slice(1);
  var cols = Array.from(table.querySelectorAll('col')).slice(1);
  var view = find('process');
  var marked = [];
  function mark(it) { if (it) { it.classList.add('on'); marked.push(it); } }
  function step(k) { return k < 0 ? find('start') : find('step-' + heads[k].id); }
  function items(k, pid) { return Array.from(step(k).querySelectorAll('[data-pid=' + pid + ']')); }
  function after(k, pid) {
    for (var i = k; i >= -1; i--) {
      var found = items(i, pid);
      if (found.length) { return found[found.length - 1].querySelector('.after').textContent; }
    }
    return view.dataset.none;
  }
  function show(k, cell) {
    marked.splice(0).forEach(function (it) { it.classList.remove('on'); });
    [heads[k], cols[k], step(k)].forEach(mark);
    view.hidden = !cell;
    if (!cell) { return; }
    var row = cell.parentNode, pid = row.id, old = after(k - 1, pid), now = after(k, pid);
    mark(cell.firstChild);
    items(k, pid).forEach(mark);
    var where = heads[k].id.replace('-', ' ') + ': ' + cell.title;
    view.querySelector('h3').textContent = row.cells[0].textContent + ', ' + where;
    view.querySelector('.old').textContent = old;
    view.querySelector('.now').textContent = now;
  }
  function place(it) { return it.closest('td, thead tr:last-child th'); }
  table.addEventListener('click', function (event) {
    var cell = place(event.target), k = cell ? cell.cellIndex - 1 : -1;
    if (k < 0) { return; }
    show(k, cell.tagName === 'TD' ? cell : null);
    (view.hidden ? step(k).firstElementChild : view).scrollIntoView({ block: 'nearest' });
  });
  function follow() {
    var k = heads.findIndex(function (head) { return '#' + head.id === location.hash; });
    if (k >= 0) { show(k, null); }
  }
  window.addEventListener('hashchange', follow);
  find('wrong').addEventListener('click', function (event) {
    if (event.target.closest('a')) { setTimeout(follow, 0); }
  });
  var buttons = table.querySelectorAll('button');
  var stop = buttons[0];
  buttons.forEach(function (button) { button.tabIndex = button === stop ? 0 : -1; });
  table.addEventListener('focusin', function (event) {
    stop.tabIndex = -1;
    stop = event.target;
    stop.tabIndex = 0;
  });
  table.addEventListener('keydown', function (event) {
    var move = { ArrowLeft: [0, -1], ArrowRight: [0, 1], ArrowUp: [-1, 0], ArrowDown: [1, 0] }[event.key];
    var cell = move && place(event.target);
    if (!cell) { return; }
    var row = table.rows[Math.max(1, cell.parentNode.rowIndex + move[0])];
    var next = row && row.cells[cell.cellIndex + move[1]];
    var button = next && next.querySelector('button');
    if (button) { event.preventDefault(); button.focus(); }
  });
  var first = heads.findIndex(function (head) {
    return head.classList.contains('f') || find('wrong').querySelector('a[href=\"#' + head.id + '\"]');
  });
  if (heads.length) { show(Math.max(first, 0), null); follow(); }
})();
";
